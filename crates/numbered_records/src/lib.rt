// Records from numbers.
#![tactic(auto)]

ghost use Rattle.std.specs.Prelude.{◌≡◌, ◌≤◌, length, get_or};
ghost use Rattle.records.specs.Records.{written_refusal};
ghost use Rattle.numbered_records.specs.{largest_first, largest_second, has_numbers, is_record, step_from, record_written, record_buffer, record_size, objects_from, context_written, context_buffer};

use contexts::Objects;
use limits::LAST_OPERATION;
use protocol::{Refusal, Setup, Step, answers};
use records::{CONTEXT_KIND, NO_STEP, WriteError};

// By hand: kinds are numbers, here and below, as crates/records says.
fn largest_first(kind: usize) -> u32
    ensures { result ≡ largest_first kind }
{
    match kind {
        0 | 6 | 8 | 9 | 15 => 255,
        10 => LAST_OPERATION,
        12..=14 => 0,
        _ => 65535,
    }
}

fn largest_second(kind: usize) -> u32
    ensures { result ≡ largest_second kind }
{
    match kind {
        2 => 4294967295,
        3 => 255,
        _ => 0,
    }
}

// Whether the record of this kind has at most two numbers.
fn has_numbers(kind: usize) -> bool
    ensures { result ≡ has_numbers kind }
{
    kind != CONTEXT_KIND && kind != NO_STEP
}

fn is_record(tag: u8, first: u32, second: u32) -> bool
    ensures { result ≡ is_record tag first second }
{
    let kind = records::kind_of_tag(tag);
    has_numbers(kind) && first <= largest_first(kind) && second <= largest_second(kind)
}

// By hand: each number is taken modulo its field's width, as `step_from` in specs/Lib.antt has it for every number; `is_record` has asked before whether it fits.
fn step_from(kind: usize, first: u32, second: u32) -> Step
    ensures { result ≡ step_from kind first second }
{
    match kind {
        0 => Step::Start(Setup::Chain((first % 256) as u8)),
        1 => Step::BeginRead((first % 65536) as u16),
        2 => Step::BeginWrite((first % 65536) as u16, second),
        3 => Step::Deliver((first % 65536) as u16, (second % 256) as u8),
        4 => Step::Lose((first % 65536) as u16),
        5 => Step::Repeat((first % 65536) as u16),
        6 => Step::Advance((first % 256) as u8),
        7 => Step::Replace((first % 65536) as u16),
        8 => Step::Tell((first % 256) as u8),
        9 => Step::Remove((first % 256) as u8),
        10 => Step::GiveUp(first),
        12 => Step::Join,
        13 => Step::Copy,
        14 => Step::Execute,
        15 => Step::Start(Setup::Quorum((first % 256) as u8)),
        _ => Step::Start(Setup::Missing),
    }
}

// Writes a record at the start of the buffer: its tag, and its numbers in the order of the record, 0 for one that it does not have. How many bytes it has, or why it is not
// written, which leaves the buffer as it was.
pub fn write_record(tag: u8, first: u32, second: u32, out: &mut [u8]) -> Result<usize, WriteError>
    ensures { (result ≡ record_written out.old tag first second) × (out.new ≡ record_buffer out.old tag first second) }
{
    if !is_record(tag, first, second) {
        return Err(WriteError::NoRecord);
    }
    let step = step_from(records::kind_of_tag(tag), first, second);
    records::write_at(out, 0, step)
}

fn object_at(objects: &[u16], i: usize) -> u16
    ensures { result ≡ get_or objects.now i 0 }
{
    objects.get(i).copied().unwrap_or(0)
}

fn objects_from(objects: &[u16]) -> Objects
    requires { length objects.now ≤ 8 }
    ensures { result ≡ objects_from objects.now }
{
    Objects {
        count: objects.len() as u32,
        first: object_at(objects, 0),
        second: object_at(objects, 1),
        third: object_at(objects, 2),
        fourth: object_at(objects, 3),
        fifth: object_at(objects, 4),
        sixth: object_at(objects, 5),
        seventh: object_at(objects, 6),
        eighth: object_at(objects, 7),
    }
}

// Writes the record of a read of a whole context at the start of the buffer. How many bytes it has, or why it is not written, which leaves the buffer as it was: it has no
// record where there are not 2 to 8 objects.
pub fn write_context(objects: &[u16], out: &mut [u8]) -> Result<usize, WriteError>
    ensures { (result ≡ context_written out.old objects.now) × (out.new ≡ context_buffer out.old objects.now) }
{
    if 8 < objects.len() {
        return Err(WriteError::NoRecord);
    }
    records::write_at(out, 0, Step::BeginContext(objects_from(objects)))
}

// What a writer answered, in a number: 0, or refusal 1 where there is no such record, or 15 where the buffer is too short.
pub fn refusal_in(answer: Result<usize, WriteError>) -> u8
    ensures { result ≡ written_refusal answer }
{
    match answer {
        Ok(_) => 0,
        Err(WriteError::TooShort) => answers::refusal_number(Refusal::BufferTooShort),
        Err(WriteError::NoRecord) => answers::refusal_number(Refusal::Format),
    }
}

// By hand: 0 for none and no Option, as the C function and `record_size` of specs/ have it.
// How many bytes the record of a tag has, 0 for an unknown tag and for that of a read of a whole context.
pub fn record_length(tag: u8) -> u16
    ensures { result ≡ record_size tag }
{
    let kind = records::kind_of_tag(tag);
    if has_numbers(kind) {
        3 + records::content_length(kind)
    } else {
        0
    }
}
