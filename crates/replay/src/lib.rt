// The records of one input after its first: each record's step is done, and its line goes into a lent buffer.
#![tactic(auto)]

ghost use Rattle.std.specs.Prelude.{◌-◌};
ghost use Rattle.turns.specs.Turns.{next_printed};
ghost use Rattle.turns.specs.Promises.{turned, stands_as, Stands, one_turn};

use turns::{Ran, Run};
use waiting::Packet;

// By hand: the machine's cells and packets are lent one by one, here and in crates/runs, since the C functions lend them so and the contracts name each by itself.
// The next record of a run: its step is done, and its line goes into the buffer at the place `used`.
fn next(
    input: &[u8],
    run: Run,
    switch: &mut [u32; switch::CELLS],
    store: &mut [u32; store::CELLS],
    opens: &mut [u32; operations::CELLS],
    packets: &mut [Packet],
    out: &mut [u8],
    used: usize,
) -> Ran
    ensures { Stands result switch.new store.new opens.new packets.new out.new
        (one_turn (run.left - 1) out.old used (next_printed input.now
        (stands_as run switch.old store.old opens.old packets.old))) }
{
    let turn = turns::look(input, run.over, run.at);
    let done = machine::step(switch, store, opens, packets, run.count, turn.step);
    turns::conclude(run, turn.found, done, out, used)
}

// By hand: a loop of its own, since the run itself says whether another record is read.
// The records that follow, until the run is over or the place is past `stop`: their lines go into the buffer, one after the other, from the place `used` on.
pub fn records(
    input: &[u8],
    run: Run,
    switch: &mut [u32; switch::CELLS],
    store: &mut [u32; store::CELLS],
    opens: &mut [u32; operations::CELLS],
    packets: &mut [Packet],
    out: &mut [u8],
    used: usize,
    stop: usize,
) -> Ran
    ensures { Stands result switch.new store.new opens.new packets.new out.new
        (turned run.left stop input.now (stands_as run switch.old store.old opens.old packets.old) out.old used) }
{
    let mut run = run;
    let mut used = used;
    while turns::goes_on(run.over, run.left, used, stop) {
        let ran = next(input, run, switch, store, opens, packets, out, used);
        run = ran.run;
        used = ran.used;
    }
    Ran { run, used }
}
