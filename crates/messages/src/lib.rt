// Packets and the messages that they hold.
#![tactic(auto)]

ghost use Rattle.std.specs.Prelude.{◌≡◌};
ghost use Rattle.protocol.specs.Messages.{packet_of, reply_to, completion_of, is_unstamped, is_of_context, is_context_reply, in_row};

pub mod kinds;

use limits::{HeldFreshness, Number, Object, Operation, Replica, Stamp, Value};
use protocol::Message;
use protocol::answers::NONE;
use store::Write;
use waiting::Packet;

fn packet(
    kind: u8,
    replica: Replica,
    number: Number,
    operation: Operation,
    object: Object,
    value: Value,
    stamp: Stamp,
) -> Packet
    ensures { result ≡ record { kind = kind; replica = replica; number = number; operation = operation; stamp = stamp; object = object; value = value } }
{
    Packet {
        kind,
        replica,
        number,
        operation,
        stamp,
        object,
        value,
    }
}

// The packet that holds a message.
#[tactic(auto, unfolding(protocol::specs::Messages::packet_of))]
pub fn packet_of(m: Message) -> Packet
    ensures { result ≡ packet_of m }
{
    match m {
        Message::UnstampedWrite(o, x, v) => packet(kinds::UNSTAMPED_WRITE, 0, 0, o, x, v, 0),
        Message::SwitchRead(o, x) => packet(kinds::SWITCH_READ, 0, 0, o, x, 0, 0),
        Message::StampedWrite(r, w) => {
            packet(
                kinds::STAMPED_WRITE,
                r,
                0,
                w.operation,
                w.object,
                w.value,
                w.stamp,
            )
        }
        Message::DirectRead(r, number, t, o, x) => packet(
            kinds::DIRECT_READ,
            r,
            number,
            o,
            x,
            0,
            t,
        ),
        Message::NormalRead(r, o, x, t) => packet(kinds::NORMAL_READ, r, 0, o, x, 0, t),
        Message::Completion(x, t) => packet(kinds::COMPLETION, 0, 0, 0, x, 0, t),
        Message::Reply(o, v, t, f) => packet(kinds::REPLY, 0, f, o, 0, v, t),
        Message::ContextRead(o, row) => packet(kinds::CONTEXT_READ, 0, 0, o, 0, row, 0),
        Message::DirectContext(r, number, t, o, row) => {
            packet(kinds::DIRECT_CONTEXT, r, number, o, 0, row, t)
        }
        Message::NormalContext(r, o, row) => packet(kinds::NORMAL_CONTEXT, r, 0, o, 0, row, 0),
        Message::ContextReply(o, row) => packet(kinds::CONTEXT_REPLY, 0, 0, o, 0, row, 0),
        Message::Acknowledgement(r, k) => packet(kinds::ACKNOWLEDGEMENT, r, 0, 0, 0, k, 0),
        Message::Unknown => Packet::blank(),
    }
}

// The reply and the completion of a write that the tail has applied.
pub fn reply_to(w: Write) -> Packet
    ensures { result ≡ reply_to w }
{
    packet_of(Message::Reply(w.operation, w.value, 0, NONE as HeldFreshness))
}

pub fn completion_of(w: Write) -> Packet
    ensures { result ≡ completion_of w }
{
    packet_of(Message::Completion(w.object, w.stamp))
}

#[tactic(auto, unfolding(protocol::specs::Messages::is_unstamped))]
pub fn is_unstamped(p: Packet) -> bool
    ensures { result ≡ is_unstamped p }
{
    p.kind == kinds::UNSTAMPED_WRITE
}

// Whether the packet is one of a read of a whole context.
#[tactic(auto, unfolding(protocol::specs::Messages::is_of_context))]
pub fn is_of_context(p: Packet) -> bool
    ensures { result ≡ is_of_context p }
{
    matches!(p.kind, kinds::CONTEXT_READ..=kinds::CONTEXT_REPLY)
}

#[tactic(auto, unfolding(protocol::specs::Messages::is_context_reply))]
pub fn is_context_reply(p: Packet) -> bool
    ensures { result ≡ is_context_reply p }
{
    p.kind == kinds::CONTEXT_REPLY
}

// The packet with another row.
pub fn in_row(p: Packet, row: u32) -> Packet
    ensures { result ≡ in_row p row }
{
    Packet { value: row, ..p }
}
