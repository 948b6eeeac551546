// The step machine of document 01: one step at a time, over four lent things (the switch's numbers, the replicas' store, the open operations, the waiting
// packets) and the count of those that wait.
#![tactic(auto)]

ghost use Rattle.std.specs.Prelude.{◌≡◌};
ghost use Rattle.protocol.specs.Starts.{start_answer};
ghost use Rattle.protocol.specs.Steps.{machine, new_store, start_switch, start_store, start_opens, position_of, stepped_by, after};
ghost use Rattle.waiting.specs.Waiting.{waiting_list};

use protocol::{Answer, Setup, Step, Stepped, setups};
use switch::Switch;
use waiting::Packet;

// The replicas of a start: nothing written.
fn clear_store(store: &mut [u32; store::CELLS], b: Setup)
    ensures { store.new ≡ new_store b }
{
    match b {
        Setup::Missing => chain::clear(store, 0),
        Setup::Chain(n) => chain::clear(store, n),
        Setup::Quorum(n) => quorum::clear(store, n),
    }
}

// A start: nothing written, no operation open, and none of the caller's packets waits. After a refusal all that is lent holds what it held.
#[tactic(auto, unfolding(protocol::specs::Steps::start_switch, protocol::specs::Steps::start_store, protocol::specs::Steps::start_opens))]
pub fn start(
    b: Setup,
    switch: &mut [u32; switch::CELLS],
    store: &mut [u32; store::CELLS],
    opens: &mut [u32; operations::CELLS],
) -> Answer
    ensures { (result ≡ start_answer b)
        × (switch.new ≡ start_switch b switch.old)
        × (store.new ≡ start_store b store.old)
        × (opens.new ≡ start_opens b opens.old) }
{
    if setups::is_refused(b) {
        return setups::answer(b);
    }
    switch::cells::store(switch, Switch::new(1));
    clear_store(store, b);
    operations::clear(opens);
    setups::answer(b)
}

#[tactic(auto, unfolding(protocol::specs::Steps::position_of))]
fn position(x: Step) -> usize
    ensures { result ≡ position_of x }
{
    match x {
        Step::Deliver(at, _) | Step::Lose(at) | Step::Repeat(at) => usize::from(at),
        _ => 0,
    }
}

// One step of the machine: look at the packet, decide, edit the list.
// By hand: what is lent comes one by one, here and in `start`, and the packets with their count: C lends each by a pointer, and the README names the functions so.
pub fn step(
    switch: &mut [u32; switch::CELLS],
    store: &mut [u32; store::CELLS],
    opens: &mut [u32; operations::CELLS],
    packets: &mut [Packet],
    count: usize,
    x: Step,
) -> Stepped
    ensures { (result ≡ stepped_by (machine switch.old store.old opens.old (waiting_list packets.old count)) x)
        × (switch.new ≡ (after (machine switch.old store.old opens.old (waiting_list packets.old count)) x).switch)
        × (store.new ≡ (after (machine switch.old store.old opens.old (waiting_list packets.old count)) x).store)
        × (opens.new ≡ (after (machine switch.old store.old opens.old (waiting_list packets.old count)) x).opens)
        × (packets.new ≡ (after (machine switch.old store.old opens.old (waiting_list packets.old count)) x).waiting.packets) }
{
    let p = waiting::look(packets, position(x));
    let decision = dispatch::decide(switch, store, opens, packets.len(), count, p, x);
    let marks = switch::cells::marks(switch);
    Stepped {
        answer: decision.answer,
        count: waiting::change(packets, count, decision.edit),
        marks,
    }
}
