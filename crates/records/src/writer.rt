// The writer: a step's record, at a position of a lent buffer.
ghost use Rattle.std.specs.Prelude.{◌≡◌, ◌+◌, ◌≤◌, ◌∷◌, ◌++◌, length, take, replicate};
ghost use Rattle.std.proofs.Math.Seq.{paste};
ghost use Rattle.std.proofs.lemmas.List.Edits.{sets};
ghost use Rattle.protocol.specs.declared.Step.TheVariants.{Start};
ghost use Rattle.records.specs.Records.{context_kind, content_length, header_of, two_bytes, four_bytes, place_bytes, object_bytes, record_of, is_writable, written_at, buffer_after};

use crate::kinds::{CONTEXT_KIND, NO_STEP, QUORUM_KIND, content_length, kind_of, tag_of};
use crate::{WriteError, within};
use contexts::Objects;
use protocol::{Setup, Step};

// The length of the longest record.
const LONGEST: usize = 19;

// These bytes, with others in place of those from a position on.
fn with(bytes: [u8; LONGEST], at: usize, part: &[u8]) -> [u8; LONGEST]
    requires { at + length part.now ≤ 19 }
    ensures { result ≡ sets bytes at part.now }
{
    let mut next = bytes;
    next[at..at + part.len()].copy_from_slice(part);
    next
}

fn with_two(bytes: [u8; LONGEST], at: usize, x: u16) -> [u8; LONGEST]
    requires { at ≤ 17 }
    ensures { result ≡ sets bytes at (two_bytes x) }
{
    with(bytes, at, &x.to_be_bytes())
}

// The header of a record whose content has n bytes, with zeros after it.
fn header(kind: usize, n: u16) -> [u8; LONGEST]
    ensures { result ≡ header_of kind n ++ replicate 16 0 }
{
    let mut bytes = [0; LONGEST];
    bytes[0] = tag_of(kind);
    with_two(bytes, 1, n)
}

// A record whose content is one byte, with zeros after it; below, the other shapes that a content has.
fn one_byte(kind: usize, a: u8) -> [u8; LONGEST]
    ensures { result ≡ header_of kind (content_length kind) ++ a ∷ replicate 15 0 }
{
    let mut bytes = header(kind, content_length(kind));
    bytes[3] = a;
    bytes
}

fn two_bytes(kind: usize, a: u16) -> [u8; LONGEST]
    ensures { result ≡ header_of kind (content_length kind) ++ two_bytes a ++ replicate 14 0 }
{
    with_two(header(kind, content_length(kind)), 3, a)
}

fn four_bytes(kind: usize, a: u32) -> [u8; LONGEST]
    ensures { result ≡ header_of kind (content_length kind) ++ four_bytes a ++ replicate 12 0 }
{
    with(header(kind, content_length(kind)), 3, &a.to_be_bytes())
}

fn two_and_one(kind: usize, a: u16, b: u8) -> [u8; LONGEST]
    ensures { result ≡ header_of kind (content_length kind) ++ two_bytes a ++ b ∷ replicate 13 0 }
{
    let mut bytes = two_bytes(kind, a);
    bytes[5] = b;
    bytes
}

fn two_and_four(kind: usize, a: u16, b: u32) -> [u8; LONGEST]
    ensures { result ≡ header_of kind (content_length kind) ++ two_bytes a ++ four_bytes b ++ replicate 10 0 }
{
    with(two_bytes(kind, a), 5, &b.to_be_bytes())
}

// How many bytes the content of a read of these objects has.
fn objects_length(x: Objects) -> u16
    ensures { result ≡ length (object_bytes x) }
{
    let n = contexts::size(contexts::context_of(x));
    n as u16 * 2
}

// Two bytes for each of the eight places, those behind the last object being past the record.
fn objects(x: Objects) -> [u8; LONGEST]
    ensures { result ≡ header_of context_kind (length (object_bytes x)) ++ place_bytes x }
{
    let bytes = header(CONTEXT_KIND, objects_length(x));
    let bytes = with_two(bytes, 3, x.first);
    let bytes = with_two(bytes, 5, x.second);
    let bytes = with_two(bytes, 7, x.third);
    let bytes = with_two(bytes, 9, x.fourth);
    let bytes = with_two(bytes, 11, x.fifth);
    let bytes = with_two(bytes, 13, x.sixth);
    let bytes = with_two(bytes, 15, x.seventh);
    with_two(bytes, 17, x.eighth)
}

// The record of a start, with other bytes after it.
fn setup_record(b: Setup) -> [u8; LONGEST]
    ensures { take (length (record_of (Start b))) result ≡ record_of (Start b) }
{
    match b {
        Setup::Missing => header(NO_STEP, 0),
        Setup::Chain(n) => one_byte(0, n),
        Setup::Quorum(n) => one_byte(QUORUM_KIND, n),
    }
}

// The record of a step, with other bytes after it.
// By hand: one match, since the steps are the closed list of the paper, each with fields of its own.
fn record_of(step: Step) -> [u8; LONGEST]
    ensures { take (length (record_of step)) result ≡ record_of step }
{
    let kind = kind_of(step);
    match step {
        Step::Start(b) => setup_record(b),
        Step::BeginRead(object) => two_bytes(kind, object),
        Step::BeginWrite(object, value) => two_and_four(kind, object, value),
        Step::Deliver(position, choice) => two_and_one(kind, position, choice),
        Step::Lose(position) => two_bytes(kind, position),
        Step::Repeat(position) => two_bytes(kind, position),
        Step::Advance(replica) => one_byte(kind, replica),
        Step::Replace(number) => two_bytes(kind, number),
        Step::Tell(replica) => one_byte(kind, replica),
        Step::Remove(replica) => one_byte(kind, replica),
        Step::GiveUp(operation) => four_bytes(kind, operation),
        Step::BeginContext(x) => objects(x),
        Step::Join => header(kind, 0),
        Step::Copy => header(kind, 0),
        Step::Execute => header(kind, 0),
    }
}

// How many bytes the record of a step has.
pub fn record_length(step: Step) -> usize
    ensures { result ≡ length (record_of step) }
{
    match step {
        Step::BeginContext(x) => 3 + objects_length(x) as usize,
        _ => 3 + content_length(kind_of(step)) as usize,
    }
}

// Whether a step has a record. A start that sets nothing up has none, and a read of a whole context none with another number of objects than 2 to 8.
pub fn is_writable(step: Step) -> bool
    ensures { result ≡ is_writable step }
{
    match step {
        Step::BeginContext(x) => contexts::is_naming(x),
        _ => kind_of(step) != NO_STEP,
    }
}

// The first bytes of the array go into the buffer at a position.
fn put(buf: &mut [u8], at: usize, bytes: [u8; LONGEST], count: usize)
    requires { (at + count ≤ length buf.old) × (count ≤ 19) }
    ensures { buf.new ≡ paste buf.old at bytes count }
{
    buf[at..at + count].copy_from_slice(&bytes[..count]);
}

// By hand: a position beside the buffer, since callers lend the memory: the libraries have no heap.
// Writes the step's record at a position. How many bytes that are; where the step has none, or the buffer is too short, the buffer stays as it was.
pub fn write_at(buf: &mut [u8], at: usize, step: Step) -> Result<usize, WriteError>
    ensures { (result ≡ written_at buf.old at step) × (buf.new ≡ buffer_after buf.old at step) }
{
    if !is_writable(step) {
        return Err(WriteError::NoRecord);
    }
    let count = record_length(step);
    if !within(buf.len(), at, count) {
        return Err(WriteError::TooShort);
    }
    put(buf, at, record_of(step), count);
    Ok(count)
}
