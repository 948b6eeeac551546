// What stands at a position of one lent input. src/cursor.rt has the reader that walks it.
#![tactic(auto)]

ghost use Rattle.std.specs.Prelude.{◌≡◌, ◌+◌, ◌≤◌, ◌<◌, length};
ghost use Rattle.records.specs.Records.{byte_at, two_at, four_at, objects_in, operation_in, step_of, record_of_kind, record_at, is_start, in_place, next_at};

mod cursor;

use contexts::Objects;
pub use cursor::{Reader, read_at};
use protocol::{Setup, Step};
use records::{
    GIVE_UP_KIND, Malformed, NO_STEP, QUORUM_KIND, Record, is_length, is_short_give_up, kind_of,
    kind_of_tag, within,
};

// The byte at a position, or 0 past the end.
fn byte_at(s: &[u8], i: usize) -> u8
    ensures { result ≡ byte_at s.now i }
{
    s.get(i).copied().unwrap_or(0)
}

// The number of two bytes at a position, the highest first.
fn two_at(s: &[u8], i: usize) -> u16
    requires { i ≤ length s.now + 14 }
    ensures { result ≡ two_at s.now i }
{
    u16::from_be_bytes([byte_at(s, i), byte_at(s, i + 1)])
}

// By hand: from its two halves, as `four_at` of crates/records/specs has it.
fn four_at(s: &[u8], i: usize) -> u32
    requires { i ≤ length s.now + 2 }
    ensures { result ≡ four_at s.now i }
{
    u32::from(two_at(s, i)) * 65536 + u32::from(two_at(s, i + 2))
}

// By hand: the bound on the length is asked of the three private functions that take a content apart. A struct for a content with this invariant would be made in one place and taken apart in each.
// The objects that a content names, two bytes each. Past its end there are zeros, so nothing stands behind the last.
fn objects_in(content: &[u8]) -> Objects
    requires { length content.now < 65536 }
    ensures { result ≡ objects_in content.now }
{
    Objects {
        count: (content.len() / 2) as u32,
        first: two_at(content, 0),
        second: two_at(content, 2),
        third: two_at(content, 4),
        fourth: two_at(content, 6),
        fifth: two_at(content, 8),
        sixth: two_at(content, 10),
        seventh: two_at(content, 12),
        eighth: two_at(content, 14),
    }
}

// Req 07: the operation to give up, in two bytes or in four.
fn operation_in(content: &[u8]) -> u32
    requires { length content.now < 65536 }
    ensures { result ≡ operation_in content.now }
{
    if is_short_give_up(GIVE_UP_KIND, content.len() as u16) {
        u32::from(two_at(content, 0))
    } else {
        four_at(content, 0)
    }
}

// The step of a kind with this content.
// By hand: kinds are numbers, as crates/records says; and one match, since they are the closed list of the paper, each with fields of its own.
#[tactic(auto, unfolding(records::specs::Records::step_of))]
fn step_of(kind: usize, content: &[u8]) -> Step
    requires { length content.now < 65536 }
    ensures { result ≡ step_of kind content.now }
{
    match kind {
        0 => Step::Start(Setup::Chain(byte_at(content, 0))),
        1 => Step::BeginRead(two_at(content, 0)),
        2 => Step::BeginWrite(two_at(content, 0), four_at(content, 2)),
        3 => Step::Deliver(two_at(content, 0), byte_at(content, 2)),
        4 => Step::Lose(two_at(content, 0)),
        5 => Step::Repeat(two_at(content, 0)),
        6 => Step::Advance(byte_at(content, 0)),
        7 => Step::Replace(two_at(content, 0)),
        8 => Step::Tell(byte_at(content, 0)),
        9 => Step::Remove(byte_at(content, 0)),
        10 => Step::GiveUp(operation_in(content)),
        11 => Step::BeginContext(objects_in(content)),
        12 => Step::Join,
        13 => Step::Copy,
        14 => Step::Execute,
        15 => Step::Start(Setup::Quorum(byte_at(content, 0))),
        _ => Step::Start(Setup::Missing),
    }
}

// The record of a kind whose tag is at the position.
fn record_of_kind(kind: usize, s: &[u8], at: usize) -> Result<Record, Malformed>
    requires { at + 3 ≤ length s.now }
    ensures { result ≡ record_of_kind kind s.now at }
{
    let length = two_at(s, at + 1);
    let start = at + 3;
    let count = length as usize;
    if !is_length(kind, length) || !within(s.len(), start, count) {
        return Err(Malformed);
    }
    let end = start + count;
    Ok(Record {
        step: step_of(kind, &s[start..end]),
        end,
    })
}

// The record of any kind at a position.
pub fn record_at(s: &[u8], at: usize) -> Result<Record, Malformed>
    ensures { result ≡ record_at s.now at }
{
    if !within(s.len(), at, 3) {
        return Err(Malformed);
    }
    let kind = kind_of_tag(byte_at(s, at));
    if kind == NO_STEP {
        return Err(Malformed);
    }
    record_of_kind(kind, s, at)
}

// Whether the step is a start, of either kind of store.
fn is_start(step: Step) -> bool
    ensures { result ≡ is_start step }
{
    let kind = kind_of(step);
    kind == 0 || kind == QUORUM_KIND
}

// A start belongs in first place, every other step in a later one.
fn in_place(first: bool, step: Step) -> bool
    ensures { result ≡ in_place first step }
{
    is_start(step) == first
}

// The record that a run reads at a position, or none at the end of the input.
pub fn next_at(s: &[u8], at: usize) -> Result<Option<Record>, Malformed>
    ensures { result ≡ next_at s.now at }
{
    let first = at == 0;
    if !first && s.len() <= at {
        return Ok(None);
    }
    let record = record_at(s, at)?;
    if !in_place(first, record.step) {
        return Err(Malformed);
    }
    Ok(Some(record))
}
