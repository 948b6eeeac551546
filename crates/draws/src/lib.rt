// Runs drawn from a seed (document 02, Req 08): records of random steps, the same on every machine.
#![tactic(auto)]

ghost use Rattle.std.specs.Prelude.{◌≡◌, ◌+◌, ◌*◌, ◌%◌, ◌≤◌, ◌++◌, IfOk, length, drop};
ghost use Rattle.draws.specs.{drawn, upper_of, kind_from, step_from, has_two, step_drawn, seed_after, steps_drawn, records_of, bytes_drawn, most_steps, error_number, answer_number, draw_answer, draw_buffer};
ghost use Rattle.lines.specs.Text.{pasted};
ghost use Rattle.protocol.specs.declared.Setup.TheVariants.{Chain};
ghost use Rattle.protocol.specs.Starts.{start_refused};

use protocol::{Setup, Step};

// The most steps of a drawn run.
const MOST_STEPS: u64 = 7000;

// Why a run is not drawn: the number of replicas is not 1 to 8, there are too many steps, or the buffer is too short.
#[derive(Clone, Copy, Debug, PartialEq, Eq)]
pub enum DrawError {
    Replicas = 2,
    Steps = 20,
    BufferTooShort = 15,
}

impl DrawError {
    // The number of the refusal.
    pub fn number(self) -> u8
        ensures { result ≡ error_number self }
    {
        self as u8
    }
}

// A step that was drawn, and the seed after it.
#[derive(Clone, Copy)]
struct Drawing {
    pub step: Step,
    pub seed: u32,
}

// The product mod 2^32.
fn multiply(a: u32, b: u32) -> u32
    ensures { result ≡ a * b % 4294967296 }
{
    a.wrapping_mul(b)
}

// A draw, which is also the next seed.
fn draw(seed: u32) -> u32
    ensures { result ≡ drawn seed }
{
    multiply(seed, 1664525).wrapping_add(1013904223)
}

// The upper 16 bits of a draw, which are used.
fn upper(draw: u32) -> u16
    ensures { result ≡ upper_of draw }
{
    (draw / 65536) as u16
}

// The kind of the next record.
// By hand: a kind is the number of its tag, as the rule of the draw gives it (`kind_from`, `step_from` and `has_two` of specs/).
fn kind_from(draw: u32) -> u16
    ensures { result ≡ kind_from draw }
{
    upper(draw) % 10 + 1
}

fn replica(a: u16) -> u8
    ensures { result ≡ a % 8 + 1 }
{
    (a % 8 + 1) as u8
}

// The step of a kind, from what is drawn for its fields.
fn step_from(kind: u16, a: u16, b: u16) -> Step
    ensures { result ≡ step_from kind a b }
{
    match kind {
        1 => Step::BeginRead(a % 1024),
        2 => Step::BeginWrite(a % 1024, u32::from(b)),
        3 => Step::Deliver(a % 64, (b % 256) as u8),
        4 => Step::Lose(a % 64),
        5 => Step::Repeat(a % 64),
        6 => Step::Advance(replica(a)),
        7 => Step::Replace(a),
        8 => Step::Tell(replica(a)),
        9 => Step::Remove(replica(a)),
        10 => Step::GiveUp(u32::from(a)),
        _ => Step::Start(Setup::Missing),
    }
}

// A write and a deliver have two fields, the others one.
fn has_two(kind: u16) -> bool
    ensures { result ≡ has_two kind }
{
    kind == 2 || kind == 3
}

// The step that is drawn next.
fn next(seed: u32) -> Drawing
    ensures { (result.step ≡ step_drawn seed) × (result.seed ≡ seed_after seed) }
{
    let tag = draw(seed);
    let first = draw(tag);
    let second = draw(first);
    let kind = kind_from(tag);
    let step = step_from(kind, upper(first), upper(second));
    let seed = if has_two(kind) { second } else { first };
    Drawing { step, seed }
}

// How many bytes the records of so many steps have.
fn size(seed: u32, steps: u64) -> usize
    requires { steps ≤ most_steps }
    ensures { (result ≡ length (records_of (steps_drawn steps seed))) × (result ≤ 63000) }
{
    let mut at = seed;
    let mut size: usize = 0;
    for _i in 0..steps {
        let drawing = next(at);
        size += records::record_length(drawing.step);
        at = drawing.seed;
    }
    size
}

// By hand: a place beside the buffer, since callers lend the memory: the libraries have no heap.
// Writes the records of so many steps from a place on, where they have room.
fn write(out: &mut [u8], from: usize, seed: u32, steps: u64)
    requires { (steps ≤ most_steps) × (from ≤ 4) × (from + length (records_of (steps_drawn steps seed)) ≤ length out.old) }
    ensures { out.new ≡ pasted out.old from (records_of (steps_drawn steps seed)) }
{
    let mut at = from;
    let mut next_seed = seed;
    for _i in 0..steps {
        let drawing = next(next_seed);
        let step = drawing.step;
        let _ = records::write_at(out, at, step);
        at += records::record_length(step);
        next_seed = drawing.seed;
    }
}

// Writes the run: its start, and so many steps.
fn put(out: &mut [u8], seed: u32, n: u8, steps: u64)
    requires { (steps ≤ most_steps) × (length (bytes_drawn seed n steps) ≤ length out.old) }
    ensures { out.new ≡ bytes_drawn seed n steps ++ drop (length (bytes_drawn seed n steps)) out.old }
{
    let _ = records::write_at(out, 0, Step::Start(Setup::Chain(n)));
    write(out, 4, seed, steps);
}

fn is_start_refused(n: u64) -> bool
    ensures { result ≡ start_refused (Chain n) }
{
    n == 0 || 8 < n
}

// The run of n replicas and so many steps that the seed draws, at the start of the buffer; every byte beyond is as it was. How many bytes it has, or the refusal: a number of
// replicas that is not 1 to 8, then more than 7,000 steps, then a buffer that is too short. A refusal leaves the buffer as it was.
pub fn run(seed: u32, n: u64, steps: u64, out: &mut [u8]) -> Result<usize, DrawError>
    ensures answer { answer_number result ≡ draw_answer (length out.old) seed n steps }
    ensures size { IfOk result (λ bytes. bytes ≤ 65536) }
    ensures buffer { out.new ≡ draw_buffer out.old seed n steps }
{
    if is_start_refused(n) {
        return Err(DrawError::Replicas);
    }
    if MOST_STEPS < steps {
        return Err(DrawError::Steps);
    }
    let size = 4 + size(seed, steps);
    if out.len() < size {
        return Err(DrawError::BufferTooShort);
    }
    put(out, seed, n as u8, steps);
    Ok(size)
}
