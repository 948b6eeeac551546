// A session after a start or a step.
#![tactic(auto)]

ghost use Rattle.std.specs.Prelude.{◌≡◌};
ghost use Rattle.contexts.specs.{context};
ghost use Rattle.protocol.specs.Steps.{start_switch, start_store, start_opens};
ghost use Rattle.sessions.specs.{refusal_in, no_values, session_started, whole_step, asked_by, start_asked, marks_after, session_after};

use contexts::Context;
use limits::Freshness;
use protocol::answers::NONE;
use protocol::{Answer, Setup, Step, Stepped, answers, setups};
use records::{Malformed, Record};

// The answer of the last start or step: its refusal or 0; the operation that it finished, or 0; how many values that has (0, 1 or 2 to 8), and the values; what a finished
// read says of the pending write that it went round (0 for none, 1 for old, 2 for new); how many marks count then. `waiting` is the count of waiting packets that goes into the next step.
// By hand: numbers, 0 for none, in place of an Option or an answer, since it is the struct of the C interface.
#[repr(C)]
#[derive(Clone, Copy)]
pub struct Session {
    pub refusal: u8,
    pub operation: u32,
    pub values: Context,
    pub freshness: u32,
    pub marks: u32,
    pub waiting: usize,
}

fn refusal_in(answer: Answer) -> u8
    ensures { result ≡ refusal_in answer }
{
    match answer {
        Answer::Done => 0,
        Answer::Finished(o, v, f) => 0,
        Answer::FinishedContext(o, v) => 0,
        Answer::Refused(r) => answers::refusal_number(r),
    }
}

fn no_values() -> Context
    ensures { result ≡ no_values }
{
    Context {
        count: 0,
        first: 0,
        second: 0,
        third: 0,
        fourth: 0,
        fifth: 0,
        sixth: 0,
        seventh: 0,
        eighth: 0,
    }
}

fn one_value(v: u32) -> Context
    ensures { result ≡ context 1 v 0 0 0 0 0 0 0 }
{
    Context {
        count: 1,
        first: v,
        ..no_values()
    }
}

// The start of a record, which is all of the bytes: an empty store, no packet waits, and no mark counts. A refused start leaves what waits and what counts as it was.
pub fn begin(
    before: Session,
    switch: &mut [u32; switch::CELLS],
    store: &mut [u32; store::CELLS],
    opens: &mut [u32; operations::CELLS],
    bytes: &[u8],
) -> Session
    ensures { (result ≡ session_started (start_asked bytes.now) before)
        × (switch.new ≡ start_switch (start_asked bytes.now) switch.old)
        × (store.new ≡ start_store (start_asked bytes.now) store.old)
        × (opens.new ≡ start_opens (start_asked bytes.now) opens.old) }
{
    let b = start_asked(bytes);
    let answer = machine::start(b, switch, store, opens);
    let (marks, waiting) = if setups::is_refused(b) {
        (before.marks, before.waiting)
    } else {
        (0, 0)
    };
    session_of(refusal_in(answer), 0, no_values(), NONE, marks, waiting)
}

fn whole_step(found: Result<Record, Malformed>, size: usize) -> Step
    ensures { result ≡ whole_step found size }
{
    match found {
        Ok(record) if record.end == size => record.step,
        _ => Step::Start(Setup::Missing),
    }
}

// The step that the machine is handed for a record: a start, which it refuses, where there is none.
pub fn asked(bytes: &[u8]) -> Step
    ensures { result ≡ asked_by bytes.now }
{
    whole_step(reader::record_at(bytes, 0), bytes.len())
}

// What the start of a record sets up. It does not call `asked`, which with one caller is compiled into the step.
fn start_asked(bytes: &[u8]) -> Setup
    ensures { result ≡ start_asked bytes.now }
{
    match bytes {
        [32, 0, 1, n] => Setup::Chain(*n),
        [33, 0, 1, n] => Setup::Quorum(*n),
        _ => Setup::Missing,
    }
}

// How many marks the session has after a step: a refused one leaves them as they were.
fn marks_after(before: u32, refusal: u8, marks: u32) -> u32
    ensures { result ≡ marks_after before refusal marks }
{
    if refusal == 0 { marks } else { before }
}

// By hand: a session of these numbers, so that `begin` and each arm of `noted` is one line in place of six; the parameters are the fields of the C struct, in its order.
fn session_of(
    refusal: u8,
    operation: u32,
    values: Context,
    freshness: Freshness,
    marks: u32,
    waiting: usize,
) -> Session
    ensures { result ≡ record { refusal = refusal; operation = operation; values = values; freshness = freshness; marks = marks; waiting = waiting } }
{
    Session {
        refusal,
        operation,
        values,
        freshness,
        marks,
        waiting,
    }
}

// The session after a step; `marks` are those of the session before. One match writes all its fields.
pub fn noted(marks: u32, done: Stepped) -> Session
    ensures { result ≡ session_after marks done }
{
    let answer = done.answer;
    match answer {
        Answer::Done => session_of(0, 0, no_values(), NONE, done.marks, done.count),
        Answer::Finished(o, v, f) => session_of(0, o, one_value(v), f, done.marks, done.count),
        Answer::FinishedContext(o, v) => session_of(0, o, v, NONE, done.marks, done.count),
        Answer::Refused(r) => {
            let refusal = answers::refusal_number(r);
            let left = marks_after(marks, refusal, done.marks);
            session_of(refusal, 0, no_values(), NONE, left, done.count)
        }
    }
}
