// Document 01, 'What the run program prints', with document 02's Req 01 and Req 02: the bytes of one line, put into a lent buffer.
#![tactic(auto)]

ghost use Rattle.std.specs.Prelude.{◌≡◌, [], ◌∷◌, ◌+◌, ◌≤◌, length, leb};
ghost use Rattle.protocol.specs.declared.Answer.TheVariants.{Done, Finished, FinishedContext};
ghost use Rattle.line_lengths.specs.Lines.{digits, decimal, long_decimal, ok_start, freshness_end, finish_end, joined, context_end, no_line, line_of};
ghost use Rattle.lines.specs.Text.{put_in, Puts};

use contexts::Context;
use limits::{Freshness, RecordNumber};
use protocol::answers::{NEW, NONE, OLD};
use protocol::{Answer, answers};

// No line has more bytes.
pub const LONGEST: usize = 147;

// ---- parts of a line, at a place that has room for them; each function gives the place after what it puts
// By hand: the text goes into lent memory at a place, and the place is handed on, since the libraries have no heap; what is promised (`Puts`) speaks of the buffer and the place.

fn put_byte(out: &mut [u8], at: usize, a: u8) -> usize
    requires { at + 1 ≤ length out.old }
    ensures { Puts out.old at (a ∷ []) result out.new }
{
    out[at] = a;
    at + 1
}

fn put_bytes(out: &mut [u8], at: usize, text: &[u8]) -> usize
    requires { at + length text.now ≤ length out.old }
    ensures { Puts out.old at text.now result out.new }
{
    let end = at + text.len();
    out[at..end].copy_from_slice(text);
    end
}

// The last k digits of a number, filled in from the last to the first.
fn put_digits(out: &mut [u8], at: usize, n: u64, k: usize) -> usize
    requires { (at + k ≤ length out.old) × (k ≤ 20) }
    ensures { Puts out.old at (digits k n) result out.new }
{
    let mut rest = n;
    for place in (0..k).rev() {
        out[at + place] = b'0' + (rest % 10) as u8;
        rest /= 10;
    }
    at + k
}

// Most numbers of a line have one digit.
fn put_number(out: &mut [u8], at: usize, n: u32) -> usize
    requires { at + length (decimal n) ≤ length out.old }
    ensures { Puts out.old at (decimal n) result out.new }
{
    if n < 10 {
        return put_byte(out, at, b'0' + n as u8);
    }
    put_digits(out, at, u64::from(n), line_lengths::digits_of(n))
}

// Req 07: the number of a record.
fn put_record_number(out: &mut [u8], at: usize, n: RecordNumber) -> usize
    requires { at + length (long_decimal n) ≤ length out.old }
    ensures { Puts out.old at (long_decimal n) result out.new }
{
    put_digits(out, at, n, line_lengths::long_digits_of(n))
}

// A line up to the operation just finished: record number, `ok`, packets waiting and counting marks.
fn put_ok(out: &mut [u8], at: usize, number: RecordNumber, waiting: u32, marks: u32) -> usize
    requires { at + length (ok_start number waiting marks) ≤ length out.old }
    ensures { Puts out.old at (ok_start number waiting marks) result out.new }
{
    let at = put_record_number(out, at, number);
    let at = put_bytes(out, at, b" ok ");
    let at = put_number(out, at, waiting);
    let at = put_byte(out, at, b' ');
    let at = put_number(out, at, marks);
    put_byte(out, at, b' ')
}

// The line of a refused record: its number, `no` and the refusal.
fn put_no(out: &mut [u8], at: usize, number: RecordNumber, refusal: u8) -> usize
    requires { at + length (no_line number refusal) ≤ length out.old }
    ensures { Puts out.old at (no_line number refusal) result out.new }
{
    let at = put_record_number(out, at, number);
    let at = put_bytes(out, at, b" no ");
    let at = put_number(out, at, u32::from(refusal));
    put_byte(out, at, b'\n')
}

// What a read says of a pending write, and the line's end.
// By hand: a freshness is a number, as protocol::answers says.
fn put_freshness(out: &mut [u8], at: usize, freshness: Freshness) -> usize
    requires { at + length (freshness_end freshness) ≤ length out.old }
    ensures { Puts out.old at (freshness_end freshness) result out.new }
{
    match freshness {
        OLD => put_bytes(out, at, b"old\n"),
        NEW => put_bytes(out, at, b"new\n"),
        _ => put_bytes(out, at, b"-\n"),
    }
}

// The operation just finished, its value, and the line's end.
fn put_finish(out: &mut [u8], at: usize, operation: u32, value: u32, freshness: Freshness) -> usize
    requires { at + length (finish_end operation value freshness) ≤ length out.old }
    ensures { Puts out.old at (finish_end operation value freshness) result out.new }
{
    let at = put_number(out, at, operation);
    let at = put_byte(out, at, b' ');
    let at = put_number(out, at, value);
    let at = put_byte(out, at, b' ');
    put_freshness(out, at, freshness)
}

// The values of a read of a whole context: the first, and each later one behind a comma.
fn put_joined(out: &mut [u8], at: usize, v: Context) -> usize
    requires { at + length (joined v) ≤ length out.old }
    ensures { Puts out.old at (joined v) result out.new }
{
    let n = contexts::size(v);
    let mut end = put_number(out, at, v.first);
    for i in 1..n {
        end = put_byte(out, end, b',');
        end = put_number(out, end, contexts::place(v, i));
    }
    end
}

// The read of a whole context just finished, its values, and the line's end.
fn put_context(out: &mut [u8], at: usize, read: u32, v: Context) -> usize
    requires { at + length (context_end read v) ≤ length out.old }
    ensures { Puts out.old at (context_end read v) result out.new }
{
    let at = put_number(out, at, read);
    let at = put_byte(out, at, b' ');
    let at = put_joined(out, at, v);
    let at = put_byte(out, at, b' ');
    put_freshness(out, at, NONE)
}

// ---- whole lines

fn put_done(out: &mut [u8], at: usize, number: RecordNumber, waiting: u32, marks: u32) -> usize
    requires { at + length (line_of number Done waiting marks) ≤ length out.old }
    ensures { Puts out.old at (line_of number Done waiting marks) result out.new }
{
    let at = put_ok(out, at, number, waiting, marks);
    let at = put_bytes(out, at, b"- - ");
    put_freshness(out, at, NONE)
}

fn put_finished(
    out: &mut [u8],
    at: usize,
    number: RecordNumber,
    operation: u32,
    value: u32,
    freshness: Freshness,
    waiting: u32,
    marks: u32,
) -> usize
    requires { at + length (line_of number (Finished operation value freshness) waiting marks) ≤ length out.old }
    ensures { Puts out.old at (line_of number (Finished operation value freshness) waiting marks) result out.new }
{
    let at = put_ok(out, at, number, waiting, marks);
    put_finish(out, at, operation, value, freshness)
}

fn put_finished_context(
    out: &mut [u8],
    at: usize,
    number: RecordNumber,
    read: u32,
    v: Context,
    waiting: u32,
    marks: u32,
) -> usize
    requires { at + length (line_of number (FinishedContext read v) waiting marks) ≤ length out.old }
    ensures { Puts out.old at (line_of number (FinishedContext read v) waiting marks) result out.new }
{
    let at = put_ok(out, at, number, waiting, marks);
    put_context(out, at, read, v)
}

// The line of a record, from its answer and from what the machine then holds.
fn put_line(
    out: &mut [u8],
    at: usize,
    number: RecordNumber,
    answer: Answer,
    waiting: u32,
    marks: u32,
) -> usize
    requires { at + length (line_of number answer waiting marks) ≤ length out.old }
    ensures { Puts out.old at (line_of number answer waiting marks) result out.new }
{
    match answer {
        Answer::Done => put_done(out, at, number, waiting, marks),
        Answer::Finished(operation, value, freshness) => put_finished(
            out, at, number, operation, value, freshness, waiting, marks,
        ),
        Answer::FinishedContext(read, v) => {
            put_finished_context(out, at, number, read, v, waiting, marks)
        }
        Answer::Refused(refusal) => put_no(out, at, number, answers::refusal_number(refusal)),
    }
}

// Whether n bytes have room at a place of a buffer of this length.
pub fn fits(length: usize, at: usize, n: usize) -> bool
    ensures { result ≡ leb (at + n) length }
{
    length.checked_sub(at).is_some_and(|room| n <= room)
}

// The line of a record at a place; the buffer is unchanged where it is too short. How many bytes the line has.
pub fn put_answer(
    out: &mut [u8],
    at: usize,
    number: RecordNumber,
    answer: Answer,
    waiting: u32,
    marks: u32,
) -> usize
    ensures { (result ≡ length (line_of number answer waiting marks))
        × (out.new ≡ put_in out.old at (line_of number answer waiting marks)) }
{
    if fits(out.len(), at, LONGEST) {
        return put_line(out, at, number, answer, waiting, marks) - at;
    }
    let n = line_lengths::line_length(number, answer, waiting, marks);
    if fits(out.len(), at, n) {
        put_line(out, at, number, answer, waiting, marks);
    }
    n
}

// The line of a refused record at a place, in the same way.
pub fn put_refusal(out: &mut [u8], at: usize, number: RecordNumber, refusal: u8) -> usize
    ensures { (result ≡ length (no_line number refusal)) × (out.new ≡ put_in out.old at (no_line number refusal)) }
{
    let n = line_lengths::no_length(number, refusal);
    if fits(out.len(), at, n) {
        put_no(out, at, number, refusal);
    }
    n
}
