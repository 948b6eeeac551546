// Reads of several objects (document 02, Req 02) at a replica, and their replies.
#![tactic(auto)]

ghost use Rattle.std.specs.Prelude.{◌≡◌};
ghost use Rattle.lists.specs.{all_of};
ghost use Rattle.store.specs.{value_at};
ghost use Rattle.contexts.specs.{numbers_of, mapped};
ghost use Rattle.replicas.specs.Replicas.{is_not_above, answers_direct};
ghost use Rattle.protocol.specs.Reads.{answers_read};
ghost use Rattle.protocol.specs.Contexts.{answering_context, direct_context, normal_context, context_reply};

use contexts::Context;
use limits::{Number, Object, Operation, Replica, Stamp, Table};
use protocol::{Answer, Decision, Message};

// ---- to a replica

// Whether no object's stamp is above the one carried.
fn none_above(store: &[u32; store::CELLS], q: Table, t: Stamp, v: Context) -> bool
    ensures { result ≡ all_of (is_not_above store.now q t) (numbers_of v) }
{
    (0..contexts::size(v)).all(|i| replicas::is_not_above(store, q, t, contexts::place(v, i)))
}

#[tactic(auto, unfolding(replicas::specs::Replicas::answers_direct))]
fn answers(store: &[u32; store::CELLS], q: Table, number: Number, t: Stamp, v: Context) -> bool
    ensures { result ≡ answers_direct store.now q number t (numbers_of v) }
{
    store::permitted(store, q) == u32::from(number) && none_above(store, q, t, v)
}

// Whether the replica answers a direct read of several objects.
// By hand: `answers` and this are as `replicas::answers` and `replica_delivery::answers_read` for one object: what is alike is one test in each, and with the rest as a closure neither would be shorter.
#[tactic(auto, unfolding(protocol::specs::Reads::answers_read))]
fn answers_read(store: &[u32; store::CELLS], q: Table, number: Number, t: Stamp, v: Context) -> bool
    ensures { result ≡ answers_read store.now q number t (numbers_of v) }
{
    if store::is_quorum(store) {
        quorum::answers(store, q, number, t)
    } else {
        answers(store, q, number, t, v)
    }
}

// The values of the objects, in the order given.
// By hand: field by field, as `mapped` of contexts/specs: a context has nine fields and no array, which the theorems above name.
#[tactic(auto, unfolding(contexts::specs::mapped))]
fn values(store: &[u32; store::CELLS], q: Table, v: Context) -> Context
    ensures { result ≡ mapped (value_at store.now q) v }
{
    let n = v.count;
    Context {
        count: n,
        first: contexts::kept(n, 0, store::read_value(store, q, v.first)),
        second: contexts::kept(n, 1, store::read_value(store, q, v.second)),
        third: contexts::kept(n, 2, store::read_value(store, q, v.third)),
        fourth: contexts::kept(n, 3, store::read_value(store, q, v.fourth)),
        fifth: contexts::kept(n, 4, store::read_value(store, q, v.fifth)),
        sixth: contexts::kept(n, 5, store::read_value(store, q, v.sixth)),
        seventh: contexts::kept(n, 6, store::read_value(store, q, v.seventh)),
        eighth: contexts::kept(n, 7, store::read_value(store, q, v.eighth)),
    }
}

// The replica answers the read whole.
#[tactic(auto, unfolding(protocol::specs::Contexts::answering_context))]
fn answer(
    store: &[u32; store::CELLS],
    opens: &mut [u32; operations::CELLS],
    at: usize,
    q: Table,
    o: Operation,
    r: u32,
) -> Decision
    ensures { (result ≡ (answering_context store.now opens.old at q o r).decision)
        × (opens.new ≡ (answering_context store.now opens.old at q o r).opens) }
{
    let v = values(store, q, contexts::load(opens, r));
    contexts::hold(opens, r, v);
    decisions::pass_on(at, Message::ContextReply(o, r))
}

#[tactic(auto, using(chain::proofs::Found::found), unfolding(protocol::specs::Contexts::direct_context))]
pub fn direct_read(
    store: &[u32; store::CELLS],
    opens: &mut [u32; operations::CELLS],
    at: usize,
    q: Replica,
    number: Number,
    t: Stamp,
    o: Operation,
    r: u32,
) -> Decision
    ensures { (result ≡ (direct_context store.now opens.old at q number t o r).decision)
        × (opens.new ≡ (direct_context store.now opens.old at q number t o r).opens) }
{
    let Some(table) = chain::table(store, q) else {
        return context_rows::drop_row(opens, at, r);
    };
    if answers_read(store, table, number, t, contexts::load(opens, r)) {
        return answer(store, opens, at, table, o, r);
    }
    decisions::pass_on(
        at,
        Message::NormalContext(chain::read_replica_number(store), o, r),
    )
}

#[tactic(auto, using(chain::proofs::Found::found), unfolding(protocol::specs::Contexts::normal_context, chain::specs::is_read_replica, chain::specs::table_of))]
pub fn normal_read(
    store: &[u32; store::CELLS],
    opens: &mut [u32; operations::CELLS],
    at: usize,
    q: Replica,
    o: Operation,
    r: u32,
) -> Decision
    ensures { (result ≡ (normal_context store.now opens.old at q o r).decision)
        × (opens.new ≡ (normal_context store.now opens.old at q o r).opens) }
{
    let Some(place) = chain::place(store, q) else {
        return context_rows::drop_row(opens, at, r);
    };
    if !chain::is_read_place(store, place) {
        return decisions::pass_on(
            at,
            Message::NormalContext(chain::read_replica_number(store), o, r),
        );
    }
    answer(store, opens, at, chain::member(store, place), o, r)
}

// ---- a reply

#[tactic(auto, unfolding(protocol::specs::Contexts::context_reply))]
pub fn finish(opens: &mut [u32; operations::CELLS], at: usize, o: Operation, r: u32) -> Decision
    ensures { (result ≡ (context_reply opens.old at o r).decision) × (opens.new ≡ (context_reply opens.old at o r).opens) }
{
    if !operations::is_open(opens, o) {
        return context_rows::drop_row(opens, at, r);
    }
    let v = contexts::load(opens, r);
    operations::close(opens, o);
    contexts::free(opens, r);
    Decision {
        answer: Answer::FinishedContext(o, v),
        edit: decisions::take_out(at),
    }
}
