// The run of one input, record by record: what is read, and the line that its step gives. crates/replay does the steps.
#![tactic(auto)]

ghost use Rattle.std.specs.Prelude.{◌≡◌, ℕ, ◌-◌, List, length};
ghost use Rattle.waiting.specs.declared.Packet.{Packet};
ghost use Rattle.waiting.specs.Waiting.{none_wait};
ghost use Rattle.protocol.specs.Answers.{refusal_number};
ghost use Rattle.protocol.specs.Steps.{machine};
ghost use Rattle.protocol.specs.declared.Refusal.TheVariants.{Format, InputTooLong};
ghost use Rattle.line_lengths.specs.Lines.{no_line};
ghost use Rattle.lines.specs.Text.{put_in};
ghost use Rattle.turns.specs.Turns.{next_number, read_next, stopped, started_with, first_printed};
ghost use Rattle.turns.specs.Promises.{place_after, goes_on, Stands, one_turn, Concludes, turn_of, going_on, over_run, concluded};

use limits::{INPUT, RecordNumber};
use protocol::{Refusal, Setup, Step, Stepped, answers, setups};
use records::{Malformed, Record};
use waiting::Packet;

// The last place of 64 bits.
pub const LAST_PLACE: usize = usize::MAX;

// How a run stands between two records; the machine is lent, and `count` of its packets wait. `at` is where the next record begins, `number` its number, and
// `left` bounds the records that follow.
// By hand: `over` is a flag, since `Standing` in specs/Turns.antt, over which `run_ends` is proved, has it beside the position and the number, which a run that is over keeps.
#[derive(Clone, Copy)]
pub struct Run {
    pub count: usize,
    pub at: usize,
    pub number: RecordNumber,
    pub over: bool,
    pub left: usize,
}

// How a run stands after a record, and the place after its line.
#[derive(Clone, Copy)]
pub struct Ran {
    pub run: Run,
    pub used: usize,
}

// What is read, and the step that the machine is handed.
#[derive(Clone, Copy)]
pub struct Turn {
    pub found: Result<Option<Record>, Malformed>,
    pub step: Step,
}

// The number of the record after this one; the last number stays.
fn next_number(k: RecordNumber) -> RecordNumber
    ensures { result ≡ next_number k }
{
    k.saturating_add(1)
}

// ---- one record

// What is read next: nothing once the run is over.
fn read_next(input: &[u8], over: bool, at: usize) -> Result<Option<Record>, Malformed>
    ensures { result ≡ read_next input.now over at }
{
    if over {
        Ok(None)
    } else {
        reader::read_at(input, at)
    }
}

// Where no step is read, the machine is handed one that it refuses, so that it changes nothing.
fn turn_of(found: Result<Option<Record>, Malformed>) -> Turn
    ensures { result ≡ turn_of found }
{
    let step = match found {
        Ok(Some(record)) => record.step,
        _ => Step::Start(Setup::Missing),
    };
    Turn { found, step }
}

pub fn look(input: &[u8], over: bool, at: usize) -> Turn
    ensures { result ≡ turn_of (read_next input.now over at) }
{
    turn_of(read_next(input, over, at))
}

// The run after a step, with its line in the buffer; the next record is at `at`.
fn go_on(run: Run, at: usize, done: Stepped, out: &mut [u8], used: usize) -> Ran
    ensures { Concludes result out.new out.old used (going_on run at done) }
{
    let count = done.count;
    let answer = done.answer;
    let waiting = waiting::held(count) as u32;
    let n = lines::put_answer(out, used, run.number, answer, waiting, done.marks);
    let run = Run {
        count,
        at,
        number: next_number(run.number),
        over: false,
        left: run.left.saturating_sub(1),
    };
    Ran {
        run,
        used: used.saturating_add(n),
    }
}

// The run is over.
fn end(run: Run) -> Run
    ensures { result ≡ over_run run }
{
    Run {
        over: true,
        left: run.left.saturating_sub(1),
        ..run
    }
}

// The line of a record that is refused by 1, in the buffer. The place after it.
fn put_malformed(out: &mut [u8], used: usize, number: RecordNumber) -> usize
    ensures { (result ≡ place_after used (length (no_line number (refusal_number Format))))
        × (out.new ≡ put_in out.old used (no_line number (refusal_number Format))) }
{
    let n = lines::put_refusal(out, used, number, answers::refusal_number(Refusal::Format));
    used.saturating_add(n)
}

// The run after what was read, whose step gave `done`.
pub fn conclude(
    run: Run,
    found: Result<Option<Record>, Malformed>,
    done: Stepped,
    out: &mut [u8],
    used: usize,
) -> Ran
    ensures { Concludes result out.new out.old used (concluded run found done) }
{
    match found {
        Ok(Some(record)) => go_on(run, record.end, done, out, used),
        Ok(None) => Ran {
            run: end(run),
            used,
        },
        Err(_) => {
            let used = put_malformed(out, used, run.number);
            Ran {
                run: end(run),
                used,
            }
        }
    }
}

// ---- the first record

// Nothing is run: the line of a refusal goes to the buffer's start.
fn stop(out: &mut [u8], number: RecordNumber, why: Refusal, turns: usize) -> Ran
    ensures { (switch store opens : List ℕ) (row : List Packet) → Stands result switch store opens row out.new
        (one_turn turns out.old 0 (stopped (machine switch store opens (none_wait row)) (no_line number (refusal_number why)))) }
{
    let n = lines::put_refusal(out, 0, number, answers::refusal_number(why));
    let run = Run {
        count: 0,
        at: 0,
        number: 1,
        over: true,
        left: turns,
    };
    Ran { run, used: n }
}

// By hand: the three lent arrays one by one, as crates/replay says, and the buffer with a place beside: the libraries have no heap.
// The run after a start; the next record is at `at`, and at most so many turns follow.
fn start_with(
    b: Setup,
    at: usize,
    turns: usize,
    switch: &mut [u32; switch::CELLS],
    store: &mut [u32; store::CELLS],
    opens: &mut [u32; operations::CELLS],
    out: &mut [u8],
) -> Ran
    ensures { (row : List Packet) → Stands result switch.new store.new opens.new row out.new
        (one_turn turns out.old 0 (started_with (machine switch.old store.old opens.old (none_wait row)) b at)) }
{
    let answer = machine::start(b, switch, store, opens);
    let over = setups::is_refused(b);
    let bytes = lines::put_answer(out, 0, 1, answer, 0, 0);
    let run = Run {
        count: 0,
        at,
        number: 2,
        over,
        left: turns,
    };
    Ran { run, used: bytes }
}

// The first record of an input: a start, or what is refused in its place. Its line goes to the buffer's start.
pub fn first(
    input: &[u8],
    switch: &mut [u32; switch::CELLS],
    store: &mut [u32; store::CELLS],
    opens: &mut [u32; operations::CELLS],
    out: &mut [u8],
) -> Ran
    ensures { (row : List Packet) → Stands result switch.new store.new opens.new row out.new
        (one_turn (length input.now) out.old 0 (first_printed (machine switch.old store.old opens.old (none_wait row)) input.now)) }
{
    let turns = input.len();
    if INPUT < turns {
        return stop(out, 0, Refusal::InputTooLong, turns);
    }
    match reader::read_at(input, 0) {
        Ok(Some(record)) => start_with(
            setups::setup_of(record.step),
            record.end,
            turns,
            switch,
            store,
            opens,
            out,
        ),
        _ => stop(out, 1, Refusal::Format, turns),
    }
}

// Whether another record is read.
pub fn goes_on(over: bool, left: usize, used: usize, stop: usize) -> bool
    ensures { result ≡ goes_on over left used stop }
{
    !over && 0 < left && used <= stop
}
