// A shorter run whose last record is still refused with the same number (document 02, Req 09).
#![tactic(auto)]

ghost use Rattle.std.specs.Prelude.{◌≡◌, cond, [], ◌++◌, ◌+◌, ◌-◌, ◌≤◌, ◌<◌, eqb, leb, IfOk, Ok, Err, length, take, drop, replicate};
ghost use Rattle.records.specs.Records.{next_at};
ghost use Rattle.shortening.specs.Shortening.{size_at, is_record, digits_read, refusal_read, refusal_of, kept_to, drops, tried, passed, dropped, rounds, most_records, records_in, shortened, kept_refusal, signed, error_number, answer_number, shorten_answer, handed, shorten_buffer};
ghost use Rattle.shortening.specs.Promises.{Within, Sound, ScannedFrom, Scanned};

use limits::INPUT;
use protocol::setups;

// The most records of an input that is shortened, the bytes that so many have at the most, and room for the lines of so many bytes.
const MOST: usize = 512;

const LONGEST: usize = 9728;

const LINES: usize = 477184;

// Why a run is not shortened: the run of the input meets one of the first three; there are too many records, the last is not refused by its step, or the buffer is too short.
#[derive(Clone, Copy, Debug, PartialEq, Eq)]
pub enum ShortenError {
    Malformed = 1,
    Replicas = 2,
    InputTooLong = 14,
    TooManyRecords = 22,
    NotRefused = 21,
    BufferTooShort = 15,
}

impl ShortenError {
    // The number of the refusal.
    pub fn number(self) -> u8
        ensures { result ≡ error_number self }
    {
        self as u8
    }
}

// An input that is shortened: its bytes, how many records they are, and the number that the last one is refused with.
#[derive(Clone, Copy)]
struct Input<'a> {
    bytes: &'a [u8],
    count: usize,
    number: u8,
    ghost within: { Within count bytes.now },
    ghost few: { count ≤ most_records },
    ghost short: { length bytes.now ≤ 9728 },
}

// ---- the records of the input

// How many bytes the record at a position has.
fn size_at(s: &[u8], at: usize) -> usize
    requires { at + 3 ≤ length s.now }
    ensures { (result ≡ size_at s.now at) × (result ≤ 65538) }
{
    3 + usize::from(u16::from_be_bytes([s[at + 1], s[at + 2]]))
}

// Whether a run reads a record at a position.
fn has_record(s: &[u8], at: usize) -> bool
    ensures { result ≡ is_record (next_at s.now at) }
{
    matches!(reader::next_at(s, at), Ok(Some(_)))
}

// How many records there are, the start counted, which ends at a position; or what is met behind it.
fn scan_from(input: &[u8], from: usize) -> Result<usize, ShortenError>
    requires { (from ≡ size_at input.now 0) × (from ≤ length input.now) × (from ≤ 19) }
    ensures { ScannedFrom result input.now }
{
    let mut at = from;
    let mut count: usize = 1;
    // By hand: where the next record begins, the record before it says, so no range has the places.
    while at < input.len() {
        if !has_record(input, at) {
            return Err(ShortenError::Malformed);
        }
        at += size_at(input, at);
        count += 1;
    }
    Ok(count)
}

// How many records the run of an input reads, the start counted; or what it meets.
fn scan(input: &[u8]) -> Result<usize, ShortenError>
    ensures { Scanned result input.now }
{
    if INPUT < input.len() {
        return Err(ShortenError::InputTooLong);
    }
    let Ok(Some(record)) = reader::next_at(input, 0) else {
        return Err(ShortenError::Malformed);
    };
    if setups::is_refused(setups::setup_of(record.step)) {
        return Err(ShortenError::Replicas);
    }
    scan_from(input, size_at(input, 0))
}

// ---- the refusal of the last record

// By hand: 0 is "not refused" in read_digits, read_refusal, refusal and trial, as refusal_read and refusal_of of specs/Shortening.antt have it.

// The number that two bytes show, or 0.
fn read_digits(before: u8, last: u8) -> u8
    ensures { result ≡ digits_read before last }
{
    if !last.is_ascii_digit() {
        return 0;
    }
    if !before.is_ascii_digit() {
        return last - b'0';
    }
    (before - b'0') * 10 + (last - b'0')
}

// The number that the first n bytes end with, before a line end.
fn read_refusal(lines: &[u8], n: usize) -> u8
    requires { n ≤ length lines.now }
    ensures { result ≡ refusal_read (take n lines.now) }
{
    if n < 3 {
        return 0;
    }
    read_digits(lines[n - 3], lines[n - 2])
}

// The refusal of the last record of a run, 0 where it is not refused.
fn refusal(input: &[u8], lines: &mut [u8]) -> u8
    requires { (length input.now ≤ 9728) × (length lines.old ≡ 477184) }
    ensures { (result ≡ refusal_of input.now) × (length lines.new ≡ length lines.old) }
{
    let n = runs::print(input, lines);
    read_refusal(lines, n)
}

// ---- what is kept

// Adds a record to those that are kept, unless its flag is 0. The place after them.
// By hand: a place beside the buffer, in fixed memory: the libraries have no heap.
fn add(out: &mut [u8], used: usize, part: &[u8], flag: u8) -> usize
    requires { used + length part.now ≤ length out.old }
    ensures { (take result out.new ≡ take used out.old ++ cond (eqb flag 0) [] part.now)
        × (result ≡ used + length (cond (eqb flag 0) [] part.now)) × (length out.new ≡ length out.old) }
{
    if flag == 0 {
        return used;
    }
    let end = used + part.len();
    out[used..end].copy_from_slice(part);
    end
}

// The records that are kept, at the start of the buffer. How many bytes they have.
fn build(input: &[u8], count: usize, flags: &[u8], out: &mut [u8]) -> usize
    requires { Within count input.now × (count ≤ length flags.now) × (length input.now ≤ length out.old) }
    ensures { (take result out.new ≡ kept_to count input.now flags.now)
        × (result ≡ length (kept_to count input.now flags.now)) × (result ≤ length input.now) × (length out.new ≡ length out.old) }
{
    let mut at = 0;
    let mut used = 0;
    for i in 0..count {
        let end = at + size_at(input, at);
        used = add(out, used, &input[at..end], flags[i]);
        at = end;
    }
    used
}

// By hand: flags, run and lines stay parameters beside the input: the types of the arrays say all that is asked of them, and a struct of three `&mut` would be no plainer.
impl Input<'_> {
    // The refusal of the last record in the run of those that are kept.
    fn trial(&self, flags: &[u8; MOST], run: &mut [u8; LONGEST], lines: &mut [u8; LINES]) -> u8
        ensures { result ≡ refusal_of (kept_to self.now.count self.now.bytes.now flags.now) }
    {
        let size = build(self.bytes, self.count, flags, run);
        refusal(&run[..size], lines)
    }

    // Tries to drop record i. Whether it was dropped.
    fn try_drop(
        &self,
        flags: &mut [u8; MOST],
        i: usize,
        run: &mut [u8; LONGEST],
        lines: &mut [u8; LINES],
    ) -> bool
        requires { i < self.now.count }
        ensures { (result ≡ drops self.now.bytes.now self.now.count self.now.number flags.old i)
            × (flags.new ≡ tried self.now.bytes.now self.now.count self.now.number flags.old i) }
    {
        let flag = flags[i];
        if flag == 0 {
            return false;
        }
        flags[i] = 0;
        if self.trial(flags, run, lines) == self.number {
            return true;
        }
        flags[i] = flag;
        false
    }

    // One pass over the records between the first and the last, from the last of them on. How many were dropped.
    fn pass(
        &self,
        flags: &mut [u8; MOST],
        run: &mut [u8; LONGEST],
        lines: &mut [u8; LINES],
    ) -> usize
        ensures { (result ≡ dropped self.now.bytes.now self.now.count self.now.number (self.now.count - 2) flags.old)
            × (flags.new ≡ passed self.now.bytes.now self.now.count self.now.number (self.now.count - 2) flags.old) }
    {
        let mut drops = 0;
        for i in (1..self.count.saturating_sub(1)).rev() {
            if self.try_drop(flags, i, run, lines) {
                drops += 1;
            }
        }
        drops
    }

    // Passes until one drops none.
    fn go_round(&self, flags: &mut [u8; MOST], run: &mut [u8; LONGEST], lines: &mut [u8; LINES])
        ensures { flags.new ≡ rounds most_records self.now.bytes.now self.now.count self.now.number flags.old }
    {
        for _i in 0..MOST {
            if self.pass(flags, run, lines) == 0 {
                return;
            }
        }
    }
}

// ---- the answer

// The records that are kept go into the lent buffer. How many bytes they have, or that it is too short.
fn hand_out(run: &[u8], size: usize, out: &mut [u8]) -> Result<usize, ShortenError>
    requires { size ≤ length run.now }
    ensures { (result ≡ cond (leb size (length out.old)) (Ok size) (Err ShortenError.BufferTooShort))
        × (out.new ≡ cond (leb size (length out.old)) (take size run.now ++ drop size out.old) out.old) }
{
    if out.len() < size {
        return Err(ShortenError::BufferTooShort);
    }
    out[..size].copy_from_slice(&run[..size]);
    Ok(size)
}

// Room for the lines of a run, and for its records.
fn lines_room() -> [u8; LINES]
    ensures { 477184 ≡ length result }
{
    [0; LINES]
}

fn run_room() -> [u8; LONGEST]
    ensures { 9728 ≡ length result }
{
    [0; LONGEST]
}

// At first every record is kept.
fn all_kept() -> [u8; MOST]
    ensures { (result ≡ replicate most_records 1) × (most_records ≡ length result) }
{
    [1; MOST]
}

// An input of at most 512 records, in which nothing is met.
fn shorten_records(input: &[u8], count: usize, out: &mut [u8]) -> Result<usize, ShortenError>
    requires { Sound count input.now × (count ≤ most_records) × (count ≡ records_in input.now) }
    ensures answer { answer_number result ≡ signed (kept_refusal (length out.old) input.now) (length (shortened input.now)) }
    ensures size { IfOk result (λ bytes. bytes ≤ 9728) }
    ensures buffer { out.new ≡ handed out.old (kept_refusal (length out.old) input.now) (shortened input.now) }
{
    let mut lines = lines_room();
    let number = refusal(input, &mut lines);
    if number == 0 {
        return Err(ShortenError::NotRefused);
    }
    let input = Input {
        bytes: input,
        count,
        number,
    };
    let mut run = run_room();
    let mut flags = all_kept();
    input.go_round(&mut flags, &mut run, &mut lines);
    let size = build(input.bytes, count, &flags, &mut run);
    hand_out(&run, size, out)
}

// A shorter run whose last record is refused with the same number, at the start of the buffer; every byte beyond is as it was. How many bytes it has, or the refusal: an input
// that is too long, then one that is malformed or whose number of replicas is not taken, as its run meets them; more than 512 records; a last record that its step does not
// refuse; a buffer that is too short. A refusal leaves the buffer as it was.
pub fn shorten(input: &[u8], out: &mut [u8]) -> Result<usize, ShortenError>
    ensures answer { answer_number result ≡ shorten_answer (length out.old) input.now }
    ensures size { IfOk result (λ bytes. bytes ≤ 9728) }
    ensures buffer { out.new ≡ shorten_buffer out.old input.now }
{
    let count = scan(input)?;
    if MOST < count {
        return Err(ShortenError::TooManyRecords);
    }
    shorten_records(input, count, out)
}
