// 'What delivery does', of packets to a replica, and of replies.
#![tactic(auto)]

ghost use Rattle.std.specs.Prelude.{◌≡◌, [], ◌∷◌};
ghost use Rattle.replicas.specs.Replicas.{taking};
ghost use Rattle.joins.specs.{handing_on};
ghost use Rattle.protocol.specs.Reads.{answers_read};
ghost use Rattle.protocol.specs.Delivery.{answering, chain_write, leader_write, stamped_write, acknowledgement, direct_read, freshness, normal_read, reply};

use limits::{Freshness, HeldFreshness, Number, Object, Operation, Replica, Stamp, Table, Value};
use protocol::answers::{NEW, NONE, OLD};
use protocol::{Answer, Decision, Message, Refusal};
use store::Write;
use waiting::Edit;

// The reply and the completion that the tail sends, in the place of the delivered write.
fn answers(at: usize, w: Write) -> Edit
    ensures { result ≡ answering at w }
{
    decisions::take_out_add_two(at, messages::reply_to(w), messages::completion_of(w))
}

// The tail takes a write, and a newcomer that has its copy of the object gets it too.
fn take_at_tail(store: &mut [u32; store::CELLS], t: Table, w: Write)
    ensures { store.new ≡ handing_on (taking store.old t w) w }
{
    replicas::take(store, t, w);
    joins::hand_on(store, w);
}

// A write that reaches a replica of a chain.
#[tactic(auto, using(chain::proofs::Found::found), unfolding(protocol::specs::Delivery::chain_write, chain::specs::is_tail, chain::specs::table_of))]
fn chain_write(
    store: &mut [u32; store::CELLS],
    held: usize,
    at: usize,
    r: Replica,
    w: Write,
) -> Decision
    ensures { (result ≡ (chain_write store.old held at r w).decision)
        × (store.new ≡ (chain_write store.old held at r w).store) }
{
    let Some(place) = chain::place(store, r) else {
        return decisions::drop_packet(at);
    };
    let t = chain::member(store, place);
    if !replicas::accepts(store, t, w.stamp) {
        return decisions::drop_packet(at);
    }
    if place + 1 != chain::count(store) {
        replicas::take(store, t, w);
        return decisions::drop_packet(at);
    }
    if decisions::is_overfull(held, 1, 2) {
        return decisions::refuse(Refusal::WaitingFull);
    }
    take_at_tail(store, t, w);
    decisions::done(answers(at, w))
}

// Req 11: a write that reaches the leader of a quorum store.
#[tactic(auto, unfolding(protocol::specs::Delivery::leader_write))]
fn leader_write(store: &mut [u32; store::CELLS], at: usize, w: Write) -> Decision
    ensures { (result ≡ (leader_write store.old at w).decision)
        × (store.new ≡ (leader_write store.old at w).store) }
{
    if quorum::accepts(store, w.stamp) {
        quorum::log(store, w);
    }
    decisions::drop_packet(at)
}

#[tactic(auto, unfolding(protocol::specs::Delivery::stamped_write))]
pub fn stamped_write(
    store: &mut [u32; store::CELLS],
    held: usize,
    at: usize,
    r: Replica,
    w: Write,
) -> Decision
    ensures { (result ≡ (stamped_write store.old held at r w).decision)
        × (store.new ≡ (stamped_write store.old held at r w).store) }
{
    if store::is_quorum(store) {
        leader_write(store, at, w)
    } else {
        chain_write(store, held, at, r, w)
    }
}

// Req 11: the leader hears how many entries a follower has logged.
#[tactic(auto, using(chain::proofs::Found::found), unfolding(protocol::specs::Delivery::acknowledgement))]
pub fn acknowledge(store: &mut [u32; store::CELLS], at: usize, q: Replica, k: u32) -> Decision
    ensures { (result ≡ (acknowledgement store.old at q k).decision)
        × (store.new ≡ (acknowledgement store.old at q k).store) }
{
    if store::is_quorum(store) {
        if let Some(t) = chain::table(store, q) {
            quorum::acknowledge(store, t, k);
        }
    }
    decisions::drop_packet(at)
}

// Whether the replica answers a direct read of one object.
#[tactic(auto, unfolding(protocol::specs::Reads::answers_read))]
fn answers_read(store: &[u32; store::CELLS], q: Table, number: Number, t: Stamp, x: Object) -> bool
    ensures { result ≡ answers_read store.now q number t (x ∷ []) }
{
    if store::is_quorum(store) {
        quorum::answers(store, q, number, t)
    } else {
        replicas::answers(store, q, x, number, t)
    }
}

#[tactic(auto, using(chain::proofs::Found::found), unfolding(protocol::specs::Delivery::direct_read))]
pub fn direct_read(
    store: &[u32; store::CELLS],
    at: usize,
    r: Replica,
    number: Number,
    t: Stamp,
    o: Operation,
    x: Object,
) -> Decision
    ensures { result ≡ direct_read store.now at r number t o x }
{
    let Some(q) = chain::table(store, r) else {
        return decisions::drop_packet(at);
    };
    if answers_read(store, q, number, t, x) {
        let v = store::read_value(store, q, x);
        return decisions::pass_on(at, Message::Reply(o, v, 0, NONE as HeldFreshness));
    }
    decisions::pass_on(
        at,
        Message::NormalRead(chain::read_replica_number(store), o, x, 0),
    )
}

// By hand: a freshness is a number, as protocol::answers says.
// What a read that carries the stamp of a pending write says of it, from the stamp of the value that it is answered with.
#[tactic(auto, unfolding(protocol::specs::Delivery::freshness))]
fn compare(stamp: Stamp, carried: Stamp) -> HeldFreshness
    ensures { result ≡ freshness stamp carried }
{
    if carried == 0 {
        NONE as HeldFreshness
    } else if stamp::above(carried, stamp) {
        OLD as HeldFreshness
    } else {
        NEW as HeldFreshness
    }
}

#[tactic(auto, using(chain::proofs::Found::found), unfolding(protocol::specs::Delivery::normal_read, chain::specs::is_read_replica, chain::specs::table_of))]
pub fn normal_read(
    store: &[u32; store::CELLS],
    at: usize,
    r: Replica,
    o: Operation,
    x: Object,
    carried: Stamp,
) -> Decision
    ensures { result ≡ normal_read store.now at r o x carried }
{
    let Some(place) = chain::place(store, r) else {
        return decisions::drop_packet(at);
    };
    if !chain::is_read_place(store, place) {
        return decisions::pass_on(
            at,
            Message::NormalRead(chain::read_replica_number(store), o, x, carried),
        );
    }
    let t = chain::member(store, place);
    let v = store::read_value(store, t, x);
    let f = compare(store::read_stamp(store, t, x), carried);
    decisions::pass_on(at, Message::Reply(o, v, carried, f))
}

#[tactic(auto, using(operations::proofs::Laws::closing_shut), unfolding(protocol::specs::Delivery::reply))]
pub fn finish(
    opens: &mut [u32; operations::CELLS],
    at: usize,
    o: Operation,
    v: Value,
    f: HeldFreshness,
) -> Decision
    ensures { (result ≡ (reply opens.old at o v f).decision)
        × (opens.new ≡ (reply opens.old at o v f).opens) }
{
    if !operations::close(opens, o) {
        return decisions::drop_packet(at);
    }
    Decision {
        answer: Answer::Finished(o, v, Freshness::from(f)),
        edit: decisions::take_out(at),
    }
}
