// The commonest decisions, and the edits of the waiting list that they ask for.
#![tactic(auto)]

ghost use Rattle.std.specs.Prelude.{◌≡◌};
ghost use Rattle.protocol.specs.Decisions.{no_edit, take_out, take_out_add, take_out_add_two, add_one, add_two, deciding, refusing, dropping, passing, overfull};

use limits::WAITING;
use protocol::{Answer, Decision, Message, Refusal};
use waiting::{Edit, Packet};

pub fn no_edit() -> Edit
    ensures { result ≡ no_edit }
{
    Edit {
        take: false,
        at: 0,
        add: 0,
        first: Packet::blank(),
        second: Packet::blank(),
    }
}

pub fn take_out(at: usize) -> Edit
    ensures { result ≡ take_out at }
{
    Edit {
        take: true,
        at,
        ..no_edit()
    }
}

pub fn take_out_add(at: usize, p: Packet) -> Edit
    ensures { result ≡ take_out_add at p }
{
    Edit {
        add: 1,
        first: p,
        ..take_out(at)
    }
}

pub fn take_out_add_two(at: usize, p: Packet, q: Packet) -> Edit
    ensures { result ≡ take_out_add_two at p q }
{
    Edit {
        take: true,
        at,
        add: 2,
        first: p,
        second: q,
    }
}

pub fn add_one(p: Packet) -> Edit
    ensures { result ≡ add_one p }
{
    Edit {
        add: 1,
        first: p,
        ..no_edit()
    }
}

pub fn add_two(p: Packet, q: Packet) -> Edit
    ensures { result ≡ add_two p q }
{
    Edit {
        add: 2,
        first: p,
        second: q,
        ..no_edit()
    }
}

pub fn done(e: Edit) -> Decision
    ensures { result ≡ deciding e }
{
    Decision {
        answer: Answer::Done,
        edit: e,
    }
}

#[tactic(auto, unfolding(protocol::specs::Decisions::refusing))]
pub fn refuse(why: Refusal) -> Decision
    ensures { result ≡ refusing why }
{
    Decision {
        answer: Answer::Refused(why),
        edit: no_edit(),
    }
}

// The packet leaves the list, and nothing else happens.
#[tactic(auto, unfolding(protocol::specs::Decisions::dropping))]
pub fn drop_packet(at: usize) -> Decision
    ensures { result ≡ dropping at }
{
    done(take_out(at))
}

// The packet leaves the list, and another comes of it.
#[tactic(auto, unfolding(protocol::specs::Decisions::passing))]
pub fn pass_on(at: usize, m: Message) -> Decision
    ensures { result ≡ passing at m }
{
    done(take_out_add(at, messages::packet_of(m)))
}

// Whether more than 64 packets would wait after `out` go and `add` come.
#[tactic(auto, unfolding(protocol::specs::Decisions::overfull))]
pub fn is_overfull(held: usize, out: usize, add: usize) -> bool
    ensures { result ≡ overfull held out add }
{
    WAITING < held.saturating_sub(out).saturating_add(add)
}
