// Every step but the delivery of a packet and the beginning of an operation: crates/packet_delivery and crates/begins have those. src/quorum_steps.rt has what is done in a quorum store alone.
#![tactic(auto)]

ghost use Rattle.std.specs.Prelude.{◌≡◌, ◌<◌};
ghost use Rattle.replicas.specs.Replicas.{applying};
ghost use Rattle.joins.specs.{handing_on};
ghost use Rattle.protocol.specs.Steps.{lost, copied, repeated, sending, chain_advancing, advancing, replacing, telling, removing, joining, copying_on, giving_up};

mod quorum_steps;

use limits::{Number, Operation, Replica, Table};
use protocol::{Decision, Refusal};
pub use quorum_steps::execute;
use store::Write;
use switch::cells;
use waiting::{Edit, Packet};

#[tactic(auto, unfolding(protocol::specs::Steps::lost))]
pub fn lose(opens: &mut [u32; operations::CELLS], held: usize, p: Packet, at: usize) -> Decision
    ensures { (result ≡ (lost opens.old held p at).decision) × (opens.new ≡ (lost opens.old held p at).opens) }
{
    if held <= at {
        return decisions::refuse(Refusal::NoPacket);
    }
    context_rows::leave(opens, p, at)
}

// A copy of the packet; one of a context has a copy of its row.
#[tactic(auto, using(contexts::proofs::Found::found), unfolding(protocol::specs::Steps::copied))]
fn copy(opens: &mut [u32; operations::CELLS], p: Packet) -> Decision
    ensures { (result ≡ (copied opens.old p).decision) × (opens.new ≡ (copied opens.old p).opens) }
{
    if !messages::is_of_context(p) {
        return decisions::done(decisions::add_one(p));
    }
    let Some(row) = contexts::free_row(opens) else {
        return decisions::refuse(Refusal::WaitingFull);
    };
    let v = contexts::load(opens, p.value);
    contexts::hold(opens, row, v);
    decisions::done(decisions::add_one(messages::in_row(p, row)))
}

#[tactic(auto, unfolding(protocol::specs::Steps::repeated))]
pub fn repeat(opens: &mut [u32; operations::CELLS], held: usize, p: Packet, at: usize) -> Decision
    ensures { (result ≡ (repeated opens.old held p at).decision) × (opens.new ≡ (repeated opens.old held p at).opens) }
{
    if held <= at {
        return decisions::refuse(Refusal::NoPacket);
    }
    if messages::is_unstamped(p) {
        return decisions::refuse(Refusal::UnstampedRepeat);
    }
    if decisions::is_overfull(held, 0, 1) {
        return decisions::refuse(Refusal::WaitingFull);
    }
    copy(opens, p)
}

// The reply and the completion that the tail, or the leader, sends for a write.
fn send(w: Write) -> Edit
    ensures { result ≡ sending w }
{
    decisions::add_two(messages::reply_to(w), messages::completion_of(w))
}

// The tail applies a write, and a newcomer that has its copy of the object gets it too.
fn apply_at_tail(store: &mut [u32; store::CELLS], t: Table, w: Write)
    ensures { store.new ≡ handing_on (applying store.old t w) w }
{
    replicas::apply(store, t, w);
    joins::hand_on(store, w);
}

// A replica of a chain applies the oldest write of its incoming link.
#[tactic(auto, using(chain::proofs::Found::found), unfolding(protocol::specs::Steps::chain_advancing, chain::specs::is_tail, chain::specs::table_of))]
fn advance_in_chain(store: &mut [u32; store::CELLS], held: usize, r: Replica) -> Decision
    ensures { (result ≡ (chain_advancing store.old held r).decision)
        × (store.new ≡ (chain_advancing store.old held r).store) }
{
    let Some(place) = chain::place(store, r) else {
        return decisions::refuse(Refusal::NotLive);
    };
    let t = chain::member(store, place);
    if replicas::pending(store, place, t) == 0 {
        return decisions::refuse(Refusal::NoLinkedWrite);
    }
    let w = replicas::oldest(store, t);
    if place + 1 != chain::count(store) {
        replicas::apply(store, t, w);
        return decisions::done(decisions::no_edit());
    }
    if decisions::is_overfull(held, 0, 2) {
        return decisions::refuse(Refusal::WaitingFull);
    }
    apply_at_tail(store, t, w);
    decisions::done(send(w))
}

// A replica takes the oldest item of its incoming link.
#[tactic(auto, unfolding(protocol::specs::Steps::advancing))]
pub fn advance(store: &mut [u32; store::CELLS], held: usize, r: Replica) -> Decision
    ensures { (result ≡ (advancing store.old held r).decision)
        × (store.new ≡ (advancing store.old held r).store) }
{
    if store::is_quorum(store) {
        quorum_steps::advance_follower(store, held, r)
    } else {
        advance_in_chain(store, held, r)
    }
}

#[tactic(auto, unfolding(protocol::specs::Steps::replacing))]
pub fn replace(switch: &mut [u32; switch::CELLS], number: Number) -> Decision
    ensures { (result ≡ (replacing switch.old number).decision)
        × (switch.new ≡ (replacing switch.old number).switch) }
{
    if number <= cells::number(switch) {
        return decisions::refuse(Refusal::SwitchNumber);
    }
    cells::store(switch, cells::load(switch).replace(number));
    decisions::done(decisions::no_edit())
}

// The replica permits the present switch.
#[tactic(auto, using(chain::proofs::Found::found), unfolding(protocol::specs::Steps::telling))]
pub fn tell(switch: &[u32; switch::CELLS], store: &mut [u32; store::CELLS], r: Replica) -> Decision
    ensures { (result ≡ (telling switch.now store.old r).decision)
        × (store.new ≡ (telling switch.now store.old r).store) }
{
    let Some(t) = chain::table(store, r) else {
        return decisions::refuse(Refusal::NotLive);
    };
    chain::permit(store, t, cells::number(switch));
    decisions::done(decisions::no_edit())
}

#[tactic(auto, using(chain::proofs::Found::found), unfolding(protocol::specs::Steps::removing))]
pub fn remove(store: &mut [u32; store::CELLS], r: Replica) -> Decision
    ensures { (result ≡ (removing store.old r).decision)
        × (store.new ≡ (removing store.old r).store) }
{
    if store::is_quorum(store) {
        return decisions::refuse(Refusal::WrongStore);
    }
    if chain::place(store, r).is_none() {
        return decisions::refuse(Refusal::NotLive);
    }
    if chain::count(store) <= 1 {
        return decisions::refuse(Refusal::LastReplica);
    }
    joins::remove(store, r);
    decisions::done(decisions::no_edit())
}

#[tactic(auto, using(operations::proofs::Laws::closing_shut), unfolding(protocol::specs::Steps::giving_up))]
pub fn give_up(opens: &mut [u32; operations::CELLS], o: Operation) -> Decision
    ensures { (result ≡ (giving_up opens.old o).decision)
        × (opens.new ≡ (giving_up opens.old o).opens) }
{
    if !operations::close(opens, o) {
        return decisions::refuse(Refusal::NotOpen);
    }
    decisions::done(decisions::no_edit())
}

// A replica begins to join.
#[tactic(auto, unfolding(protocol::specs::Steps::joining))]
pub fn join(store: &mut [u32; store::CELLS]) -> Decision
    ensures { (result ≡ (joining store.old).decision) × (store.new ≡ (joining store.old).store) }
{
    if store::is_quorum(store) {
        return decisions::refuse(Refusal::WrongStore);
    }
    if joins::is_full(store) {
        return decisions::refuse(Refusal::ChainFull);
    }
    if joins::is_joining(store) {
        return decisions::refuse(Refusal::JoinUnderWay);
    }
    joins::begin(store);
    decisions::done(decisions::no_edit())
}

// The next objects are copied to the replica that joins.
#[tactic(auto, unfolding(protocol::specs::Steps::copying_on))]
pub fn copy_on(store: &mut [u32; store::CELLS]) -> Decision
    ensures { (result ≡ (copying_on store.old).decision) × (store.new ≡ (copying_on store.old).store) }
{
    if store::is_quorum(store) {
        return decisions::refuse(Refusal::WrongStore);
    }
    if !joins::is_joining(store) {
        return decisions::refuse(Refusal::NoJoin);
    }
    joins::copy(store);
    decisions::done(decisions::no_edit())
}
