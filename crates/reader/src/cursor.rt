// 'A reader walks the records of one lent input': the input and a position in it, taken apart for `next_at`.
ghost use Rattle.std.specs.Prelude.{◌≡◌};
ghost use Rattle.records.specs.Records.{next_at};

use crate::next_at;
use records::{Malformed, Record};

#[derive(Clone, Copy)]
pub struct Reader<'a> {
    pub input: &'a [u8],
    pub at: usize,
}

impl<'a> Reader<'a> {
    // A reader at the start of an input.
    pub fn new(input: &'a [u8]) -> Reader<'a>
        ensures { (result.input ≡ input.entry) × (result.at ≡ 0) }
    {
        Reader { input, at: 0 }
    }

    // The reader at another position of its input.
    pub fn moved(self, at: usize) -> Reader<'a>
        ensures { (result.input ≡ self.entry.input) × (result.at ≡ at) }
    {
        Reader { at, ..self }
    }

    // What a run reads where the reader stands.
    pub fn next(self) -> Result<Option<Record>, Malformed>
        ensures { result ≡ next_at self.entry.input.now self.entry.at }
    {
        next_at(self.input, self.at)
    }
}

// What a reader reads at a position. Its parameters are plain, so that its callers need no proof about a `Reader`.
pub fn read_at(input: &[u8], at: usize) -> Result<Option<Record>, Malformed>
    ensures { result ≡ next_at input.now at }
{
    Reader::new(input).moved(at).next()
}
