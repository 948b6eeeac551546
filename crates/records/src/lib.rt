// The records of document 01, 'Steps and their records': their table, and steps written as bytes. crates/reader reads them.
#![tactic(auto)]

ghost use Rattle.std.specs.Prelude.{◌≡◌, ◌+◌, leb};

mod kinds;
mod writer;

pub use kinds::{
    CONTEXT_KIND, GIVE_UP_KIND, NO_STEP, QUORUM_KIND, content_length, is_length, is_short_give_up,
    kind_of, kind_of_tag,
};
use protocol::Step;
pub use writer::{is_writable, record_length, write_at};

// A record that is read: its step, and the position past it.
#[derive(Clone, Copy)]
pub struct Record {
    pub step: Step,
    pub end: usize,
}

// No record that is well formed, or none that may stand there, is where one is read (refusal 1).
#[derive(Clone, Copy, Debug)]
pub struct Malformed;

// Why a step is not written: the buffer is shorter than its record (refusal 15), or it has no record (refusal 1).
#[derive(Clone, Copy, Debug)]
pub enum WriteError {
    TooShort,
    NoRecord,
}

// Whether so many bytes from a position on lie within the size. No sum can wrap.
pub fn within(size: usize, at: usize, count: usize) -> bool
    ensures { result ≡ leb (at + count) size }
{
    size.checked_sub(at).is_some_and(|room| count <= room)
}
