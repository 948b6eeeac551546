// Which rule delivers a packet: crates/switch_delivery and replica_delivery have the rules, and crates/context_reads and context_answers those for reads of several objects.
#![tactic(auto)]

ghost use Rattle.std.specs.Prelude.{◌≡◌};
ghost use Rattle.protocol.specs.Decisions.{given};
ghost use Rattle.protocol.specs.Messages.{write_of, message_of};
ghost use Rattle.protocol.specs.Delivery.{delivered_message};
ghost use Rattle.protocol.specs.Steps.{is_sound, delivered};
ghost use Rattle.packet_delivery.specs.{Leaves};

use limits::OBJECTS;
use messages::kinds;
use protocol::{Decision, Refusal};
use store::Write;
use waiting::Packet;

// Whether what the packet names is there.
#[tactic(auto, unfolding(protocol::specs::Steps::is_sound))]
fn is_sound(opens: &[u32; operations::CELLS], p: Packet) -> bool
    ensures { result ≡ is_sound opens.now p }
{
    (p.object as usize) < OBJECTS && context_rows::has_row(opens, p)
}

// The write that a packet holds.
fn write_of(p: Packet) -> Write
    ensures { result ≡ write_of p }
{
    Write {
        operation: p.operation,
        object: p.object,
        value: p.value,
        stamp: p.stamp,
    }
}

// What the delivery of the message that a packet holds does, by the packet's kind.
// By hand: the three lent arrays one by one, as crates/dispatch says; and one match over the kinds, since they are the closed list of the paper, each with its own fields.
#[tactic(auto, using(crate::proofs::Leaves::leaves), unfolding(protocol::specs::Delivery::delivered_message, protocol::specs::Messages::message_of, protocol::specs::Messages::context_message))]
fn deliver_message(
    switch: &mut [u32; switch::CELLS],
    store: &mut [u32; store::CELLS],
    opens: &mut [u32; operations::CELLS],
    held: usize,
    p: Packet,
    at: usize,
    choice: u8,
) -> Decision
    ensures { Leaves result switch.new store.new opens.new
        (delivered_message (given switch.old store.old opens.old held) at choice (message_of p)) }
{
    let o = p.operation;
    let x = p.object;
    let v = p.value;
    let w = write_of(p);
    match p.kind {
        kinds::UNSTAMPED_WRITE => switch_delivery::unstamped_write(switch, store, at, o, x, v),
        kinds::SWITCH_READ => switch_delivery::switch_read(switch, store, at, choice, o, x),
        kinds::STAMPED_WRITE => replica_delivery::stamped_write(store, held, at, p.replica, w),
        kinds::DIRECT_READ => replica_delivery::direct_read(
            store, at, p.replica, p.number, p.stamp, o, x,
        ),
        kinds::NORMAL_READ => replica_delivery::normal_read(store, at, p.replica, o, x, p.stamp),
        kinds::COMPLETION => switch_delivery::complete(switch, at, x, p.stamp),
        kinds::REPLY => replica_delivery::finish(opens, at, o, v, p.number),
        kinds::CONTEXT_READ => context_reads::switch_read(switch, store, opens, at, choice, o, v),
        kinds::DIRECT_CONTEXT => {
            context_answers::direct_read(store, opens, at, p.replica, p.number, p.stamp, o, v)
        }
        kinds::NORMAL_CONTEXT => context_answers::normal_read(store, opens, at, p.replica, o, v),
        kinds::CONTEXT_REPLY => context_answers::finish(opens, at, o, v),
        kinds::ACKNOWLEDGEMENT => replica_delivery::acknowledge(store, at, p.replica, v),
        _ => decisions::drop_packet(at),
    }
}

// What the delivery of packet p does.
#[tactic(auto, using(crate::proofs::Leaves::leaves), unfolding(protocol::specs::Steps::delivered))]
pub fn deliver(
    switch: &mut [u32; switch::CELLS],
    store: &mut [u32; store::CELLS],
    opens: &mut [u32; operations::CELLS],
    held: usize,
    p: Packet,
    at: usize,
    choice: u8,
) -> Decision
    ensures { Leaves result switch.new store.new opens.new
        (delivered (given switch.old store.old opens.old held) p at choice) }
{
    if held <= at {
        return decisions::refuse(Refusal::NoPacket);
    }
    if !is_sound(opens, p) {
        return context_rows::leave(opens, p, at);
    }
    deliver_message(switch, store, opens, held, p, at, choice)
}
