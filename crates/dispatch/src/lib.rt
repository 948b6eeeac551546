// Which rule decides a step: crates/packet_delivery, begins and steps have the rules.
#![tactic(auto)]

ghost use Rattle.protocol.specs.Decisions.{given};
ghost use Rattle.packet_delivery.specs.{Leaves};
ghost use Rattle.std.specs.Prelude.{◌≡◌};
ghost use Rattle.protocol.specs.Steps.{is_malformed, decided, decided_in};
ghost use Rattle.waiting.specs.Waiting.{held_in};

use limits::{Object, WAITING};
use protocol::{Decision, Refusal, Step};
use waiting::Packet;

// By hand: one match over the steps and no closures, since they are the closed list of the paper, each with fields of its own.
// What is decided of a step; p is the packet at its position. The lent numbers are left as the step leaves them.
// By hand: the three lent arrays are three parameters, and no struct of three references: C lends them as three pointers, the contracts say of each what a step leaves in it, and most rules get one or two.
#[tactic(auto, using(packet_delivery::proofs::Leaves::leaves), unfolding(protocol::specs::Steps::decided))]
fn decide_step(
    switch: &mut [u32; switch::CELLS],
    store: &mut [u32; store::CELLS],
    opens: &mut [u32; operations::CELLS],
    held: usize,
    p: Packet,
    x: Step,
) -> Decision
    ensures { Leaves result switch.new store.new opens.new
        (decided (given switch.old store.old opens.old held) p x) }
{
    match x {
        Step::Start(_) => decisions::refuse(Refusal::Format),
        Step::BeginRead(x) => begins::begin(opens, held, false, Object::from(x), 0),
        Step::BeginWrite(x, v) => begins::begin(opens, held, true, Object::from(x), v),
        Step::Deliver(at, choice) => packet_delivery::deliver(
            switch,
            store,
            opens,
            held,
            p,
            usize::from(at),
            choice,
        ),
        Step::Lose(at) => steps::lose(opens, held, p, usize::from(at)),
        Step::Repeat(at) => steps::repeat(opens, held, p, usize::from(at)),
        Step::Advance(r) => steps::advance(store, held, r),
        Step::Replace(number) => steps::replace(switch, number),
        Step::Tell(r) => steps::tell(switch, store, r),
        Step::Remove(r) => steps::remove(store, r),
        Step::GiveUp(o) => steps::give_up(opens, o),
        Step::BeginContext(x) => begins::begin_context(opens, held, x),
        Step::Join => steps::join(store),
        Step::Copy => steps::copy_on(store),
        Step::Execute => steps::execute(store, held),
    }
}

// Whether the step is none.
#[tactic(auto, unfolding(protocol::specs::Steps::is_malformed))]
fn is_malformed(x: Step) -> bool
    ensures { result ≡ is_malformed x }
{
    match x {
        Step::Start(_) => true,
        Step::BeginContext(objects) => !contexts::is_naming(objects),
        _ => false,
    }
}

// What is decided of a step where `count` packets wait in so many lent places.
#[tactic(auto, using(packet_delivery::proofs::Leaves::leaves), unfolding(protocol::specs::Steps::decided_in))]
pub fn decide(
    switch: &mut [u32; switch::CELLS],
    store: &mut [u32; store::CELLS],
    opens: &mut [u32; operations::CELLS],
    places: usize,
    count: usize,
    p: Packet,
    x: Step,
) -> Decision
    ensures { Leaves result switch.new store.new opens.new
        (decided_in places (given switch.old store.old opens.old (held_in count)) p x) }
{
    if is_malformed(x) {
        return decisions::refuse(Refusal::Format);
    }
    if places < WAITING {
        return decisions::refuse(Refusal::BufferTooShort);
    }
    let held = waiting::held(count);
    decide_step(switch, store, opens, held, p, x)
}
