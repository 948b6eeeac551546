// 'What delivery does', of packets to the switch.
#![tactic(auto)]

ghost use Rattle.std.specs.Prelude.{◌≡◌};
ghost use Rattle.protocol.specs.Delivery.{stamping, unstamped_write, switch_read, completion};

use limits::{Object, Operation, Stamp, Value};
use protocol::{Decision, Message};
use store::Write;
use switch::cells;

// A write with its stamp goes to the head; (0,0) stands for none, and the write is dropped.
#[tactic(auto, unfolding(protocol::specs::Delivery::stamping))]
fn stamp_on(
    store: &[u32; store::CELLS],
    at: usize,
    o: Operation,
    x: Object,
    v: Value,
    stamp: Stamp,
) -> Decision
    ensures { result ≡ stamping store.now at o x v stamp }
{
    if stamp == 0 {
        return decisions::drop_packet(at);
    }
    let w = Write {
        operation: o,
        object: x,
        value: v,
        stamp,
    };
    decisions::pass_on(at, Message::StampedWrite(chain::head_number(store), w))
}

#[tactic(auto, unfolding(protocol::specs::Delivery::unstamped_write))]
pub fn unstamped_write(
    switch: &mut [u32; switch::CELLS],
    store: &[u32; store::CELLS],
    at: usize,
    o: Operation,
    x: Object,
    v: Value,
) -> Decision
    ensures { (result ≡ (unstamped_write switch.old store.now at o x v).decision)
        × (switch.new ≡ (unstamped_write switch.old store.now at o x v).switch) }
{
    if !chain::all_permit(store, cells::number(switch)) {
        return decisions::drop_packet(at);
    }
    let m = cells::load(switch).mark(x);
    cells::store(switch, m.state);
    stamp_on(store, at, o, x, v, m.stamp)
}

#[tactic(auto, using(lists::proofs::AllOf::all_one), unfolding(protocol::specs::Delivery::switch_read, protocol::specs::Reads::goes_directly, protocol::specs::Reads::is_unmarked))]
pub fn switch_read(
    switch: &[u32; switch::CELLS],
    store: &[u32; store::CELLS],
    at: usize,
    choice: u8,
    o: Operation,
    x: Object,
) -> Decision
    ensures { result ≡ switch_read switch.now store.now at choice o x }
{
    let mark = cells::lookup(switch, x);
    if cells::is_direct(switch) && mark == 0 {
        let to = chain::choose(store, choice);
        return decisions::pass_on(
            at,
            Message::DirectRead(to, cells::number(switch), cells::committed(switch), o, x),
        );
    }
    decisions::pass_on(
        at,
        Message::NormalRead(chain::read_replica_number(store), o, x, mark),
    )
}

#[tactic(auto, unfolding(protocol::specs::Delivery::completion))]
pub fn complete(switch: &mut [u32; switch::CELLS], at: usize, x: Object, t: Stamp) -> Decision
    ensures { (result ≡ (completion switch.old at x t).decision)
        × (switch.new ≡ (completion switch.old at x t).switch) }
{
    cells::store(switch, cells::load(switch).complete(x, t));
    decisions::drop_packet(at)
}
