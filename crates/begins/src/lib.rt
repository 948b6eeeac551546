// The steps that begin an operation: of one object, and of a whole context.
#![tactic(auto)]

ghost use Rattle.std.specs.Prelude.{◌≡◌, ◌+◌, ◌<◌};
ghost use Rattle.limits.specs.{last_operation};
ghost use Rattle.operations.specs.{last_given, opening};
ghost use Rattle.contexts.specs.{holding};
ghost use Rattle.protocol.specs.declared.Message.TheVariants.{ContextRead};
ghost use Rattle.protocol.specs.Messages.{packet_of};
ghost use Rattle.protocol.specs.Decisions.{deciding, add_one};
ghost use Rattle.protocol.specs.Steps.{asking, begin_operation, begin_context};

use contexts::{Context, Objects};
use limits::{LAST_OPERATION, OBJECTS, Object, Operation, Value};
use protocol::{Decision, Message, Refusal};

// What a new operation asks of the switch.
#[tactic(auto, unfolding(protocol::specs::Steps::asking))]
fn ask(is_write: bool, o: Operation, x: Object, v: Value) -> Message
    ensures { result ≡ asking is_write o x v }
{
    if is_write {
        Message::UnstampedWrite(o, x, v)
    } else {
        Message::SwitchRead(o, x)
    }
}

// A new operation begins, with one packet to the switch.
#[tactic(auto, unfolding(protocol::specs::Steps::begin_operation))]
pub fn begin(
    opens: &mut [u32; operations::CELLS],
    held: usize,
    is_write: bool,
    x: Object,
    v: Value,
) -> Decision
    ensures { (result ≡ (begin_operation opens.old held is_write x v).decision)
        × (opens.new ≡ (begin_operation opens.old held is_write x v).opens) }
{
    if OBJECTS <= x as usize {
        return decisions::refuse(Refusal::ObjectNumber);
    }
    let last = operations::last(opens);
    if LAST_OPERATION <= last {
        return decisions::refuse(Refusal::OperationsUsedUp);
    }
    if !operations::has_room(opens) {
        return decisions::refuse(Refusal::OpenFull);
    }
    if decisions::is_overfull(held, 0, 1) {
        return decisions::refuse(Refusal::WaitingFull);
    }
    let o = last + 1;
    operations::open(opens, o);
    let m = ask(is_write, o, x, v);
    decisions::done(decisions::add_one(messages::packet_of(m)))
}

// The operation of a read of a whole context begins, and its objects go into a free row.
fn enter(opens: &mut [u32; operations::CELLS], row: u32, v: Context) -> Decision
    requires { last_given opens.old < last_operation }
    ensures { (result ≡ deciding (add_one (packet_of (ContextRead (last_given opens.old + 1) row))))
        × (opens.new ≡ holding (opening opens.old (last_given opens.old + 1)) row v) }
{
    let o = operations::last(opens) + 1;
    operations::open(opens, o);
    contexts::hold(opens, row, v);
    decisions::done(decisions::add_one(messages::packet_of(Message::ContextRead(o, row))))
}

// A read of a whole context begins, with one packet to the switch.
#[tactic(auto, using(contexts::proofs::Found::found), unfolding(protocol::specs::Steps::begin_context))]
pub fn begin_context(opens: &mut [u32; operations::CELLS], held: usize, x: Objects) -> Decision
    ensures { (result ≡ (begin_context opens.old held x).decision)
        × (opens.new ≡ (begin_context opens.old held x).opens) }
{
    let v = contexts::context_of(x);
    if !contexts::are_objects(v) {
        return decisions::refuse(Refusal::ObjectNumber);
    }
    if !contexts::are_different(v) {
        return decisions::refuse(Refusal::SameObject);
    }
    if LAST_OPERATION <= operations::last(opens) {
        return decisions::refuse(Refusal::OperationsUsedUp);
    }
    if !operations::has_room(opens) {
        return decisions::refuse(Refusal::OpenFull);
    }
    if decisions::is_overfull(held, 0, 1) {
        return decisions::refuse(Refusal::WaitingFull);
    }
    let Some(row) = contexts::free_row(opens) else {
        return decisions::refuse(Refusal::WaitingFull);
    };
    enter(opens, row, v)
}
