// The line of a session's last step.
#![tactic(auto)]

ghost use Rattle.std.specs.Prelude.{◌≡◌, length};
ghost use Rattle.lines.specs.Text.{put_in};
ghost use Rattle.session_lines.specs.{context_from, answer_from, line_for, put_bytes};

use contexts::Context;
use limits::{CONTEXT_LEAST, RecordNumber};
use protocol::Answer;

fn context_from(count: u32, values: &[u32; 8]) -> Context
    ensures { result ≡ context_from count values.now }
{
    let [first, second, third, fourth, fifth, sixth, seventh, eighth] = *values;
    Context {
        count,
        first,
        second,
        third,
        fourth,
        fifth,
        sixth,
        seventh,
        eighth,
    }
}

// By hand: the fields of the session one by one, as the C function hands them in, 0 for none.
fn answer_from(operation: u32, count: u32, values: &[u32; 8], freshness: u32) -> Answer
    ensures { result ≡ answer_from operation count values.now freshness }
{
    if operation == 0 {
        return Answer::Done;
    }
    if count < CONTEXT_LEAST {
        return Answer::Finished(operation, values[0], freshness);
    }
    Answer::FinishedContext(operation, context_from(count, values))
}

// The line at the start of the buffer, which is unchanged where it is too short. How many bytes the line has.
fn put_line(
    number: RecordNumber,
    refusal: u8,
    operation: u32,
    count: u32,
    values: &[u32; 8],
    freshness: u32,
    waiting: usize,
    marks: u32,
    out: &mut [u8],
) -> usize
    ensures { (result ≡ length (line_for number refusal operation count values.now freshness waiting marks))
        × (out.new ≡ put_in out.old 0 (line_for number refusal operation count values.now freshness waiting marks)) }
{
    if refusal != 0 {
        return lines::put_refusal(out, 0, number, refusal);
    }
    let answer = answer_from(operation, count, values, freshness);
    let held = waiting::held(waiting) as u32;
    lines::put_answer(out, 0, number, answer, held, marks)
}

// By hand: the fields one by one, and 0 for a line without room, as the C function has them.
// The line of record `number`, from the fields of its session, at the start of the buffer. How many bytes it has: 0 where the buffer is too short, and
// unchanged.
pub fn line(
    number: RecordNumber,
    refusal: u8,
    operation: u32,
    count: u32,
    values: &[u32; 8],
    freshness: u32,
    waiting: usize,
    marks: u32,
    out: &mut [u8],
) -> usize
    ensures { (result ≡ put_bytes out.old (line_for number refusal operation count values.now freshness waiting marks))
        × (out.new ≡ put_in out.old 0 (line_for number refusal operation count values.now freshness waiting marks)) }
{
    let room = out.len();
    let n = put_line(
        number, refusal, operation, count, values, freshness, waiting, marks, out,
    );
    if n <= room { n } else { 0 }
}
