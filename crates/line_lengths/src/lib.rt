// How long each part of a line is, and a whole line. crates/lines puts them into a buffer.
#![tactic(auto)]

ghost use Rattle.std.specs.Prelude.{◌≡◌, ◌≤◌, length};
ghost use Rattle.line_lengths.specs.Lines.{places, long_places, joined, ok_start, finish_end, context_end, no_line, line_of};

use contexts::Context;
use limits::{Freshness, RecordNumber};
use protocol::answers::{NEW, OLD};
use protocol::{Answer, answers};

// How many decimal digits a number of 32 bits has.
// By hand: this and the next are two, since the logarithm is a method of each width, and of no trait that one generic function could name.
pub fn digits_of(n: u32) -> usize
    ensures { (result ≡ places n) × (result ≤ 10) }
{
    n.max(1).ilog10() as usize + 1
}

// Req 07: how many the number of a record has.
pub fn long_digits_of(number: RecordNumber) -> usize
    ensures { (result ≡ long_places number) × (result ≤ 20) }
{
    number.max(1).ilog10() as usize + 1
}

pub fn ok_length(number: RecordNumber, waiting: u32, marks: u32) -> usize
    ensures { (result ≡ length (ok_start number waiting marks)) × (result ≤ 46) }
{
    long_digits_of(number) + digits_of(waiting) + digits_of(marks) + 6
}

pub fn no_length(number: RecordNumber, refusal: u8) -> usize
    ensures { result ≡ length (no_line number refusal) }
{
    long_digits_of(number) + digits_of(refusal as u32) + 5
}

// By hand: a freshness is a number, as protocol::answers says.
pub fn finish_length(operation: u32, value: u32, freshness: Freshness) -> usize
    ensures { (result ≡ length (finish_end operation value freshness)) × (result ≤ 26) }
{
    let digits = digits_of(operation) + digits_of(value);
    if freshness == OLD || freshness == NEW {
        digits + 6
    } else {
        digits + 4
    }
}

// The first value, and each later one behind a comma.
pub fn joined_length(v: Context) -> usize
    ensures { (result ≡ length (joined v)) × (result ≤ 87) }
{
    let n = contexts::size(v);
    let mut digits = digits_of(v.first);
    for i in 1..n {
        digits += digits_of(contexts::place(v, i)) + 1;
    }
    digits
}

pub fn context_length(read: u32, v: Context) -> usize
    ensures { (result ≡ length (context_end read v)) × (result ≤ 101) }
{
    digits_of(read) + joined_length(v) + 4
}

pub fn line_length(number: RecordNumber, answer: Answer, waiting: u32, marks: u32) -> usize
    ensures { result ≡ length (line_of number answer waiting marks) }
{
    match answer {
        Answer::Done => ok_length(number, waiting, marks) + 6,
        Answer::Finished(operation, value, freshness) => {
            ok_length(number, waiting, marks) + finish_length(operation, value, freshness)
        }
        Answer::FinishedContext(read, v) => {
            ok_length(number, waiting, marks) + context_length(read, v)
        }
        Answer::Refused(refusal) => no_length(number, answers::refusal_number(refusal)),
    }
}
