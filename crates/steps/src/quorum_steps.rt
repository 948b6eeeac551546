// The steps of a quorum store (document 02, Req 11): a follower takes an item of its link, and the leader executes.
ghost use Rattle.std.specs.Prelude.{◌≡◌};
ghost use Rattle.replicas.specs.Replicas.{next_position};
ghost use Rattle.quorum.specs.{logged_by};
ghost use Rattle.protocol.specs.declared.Message.TheVariants.{Acknowledgement};
ghost use Rattle.protocol.specs.Messages.{packet_of};
ghost use Rattle.protocol.specs.Steps.{follower_advancing, executing_on};

use crate::send;
use limits::{Replica, Table};
use protocol::{Decision, Message, Refusal};
use waiting::Packet;

// The acknowledgement that a follower sends once it has logged one entry more.
fn acknowledgement(store: &[u32; store::CELLS], r: Replica, t: Table) -> Packet
    ensures { result ≡ packet_of (Acknowledgement r (next_position (logged_by store.now t))) }
{
    let count = replicas::next_position(quorum::logged(store, t));
    messages::packet_of(Message::Acknowledgement(r, count))
}

// A follower takes the oldest item of its link: it logs an entry and acknowledges it, or executes one.
#[tactic(auto, using(chain::proofs::Found::found), unfolding(protocol::specs::Steps::follower_advancing))]
pub fn advance_follower(store: &mut [u32; store::CELLS], held: usize, r: Replica) -> Decision
    ensures { (result ≡ (follower_advancing store.old held r).decision)
        × (store.new ≡ (follower_advancing store.old held r).store) }
{
    let Some(t) = chain::table(store, r) else {
        return decisions::refuse(Refusal::NotLive);
    };
    if quorum::linked(store, t) == 0 {
        return decisions::refuse(Refusal::NoLinkedWrite);
    }
    if !quorum::next_is_entry(store, t) {
        let w = quorum::next_entry(store, t);
        replicas::apply(store, t, w);
        return decisions::done(decisions::no_edit());
    }
    if decisions::is_overfull(held, 0, 1) {
        return decisions::refuse(Refusal::WaitingFull);
    }
    let p = acknowledgement(store, r, t);
    quorum::log_next(store, t);
    decisions::done(decisions::add_one(p))
}

// The leader executes the next write that a majority holds.
#[tactic(auto, unfolding(protocol::specs::Steps::executing_on))]
pub fn execute(store: &mut [u32; store::CELLS], held: usize) -> Decision
    ensures { (result ≡ (executing_on store.old held).decision)
        × (store.new ≡ (executing_on store.old held).store) }
{
    if !store::is_quorum(store) {
        return decisions::refuse(Refusal::WrongStore);
    }
    if !quorum::executes(store) {
        return decisions::refuse(Refusal::NothingToExecute);
    }
    if decisions::is_overfull(held, 0, 2) {
        return decisions::refuse(Refusal::WaitingFull);
    }
    let w = quorum::next_entry(store, chain::head(store));
    quorum::execute(store);
    decisions::done(send(w))
}
