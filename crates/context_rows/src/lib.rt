// What becomes of the row of a packet of a read of several objects (document 02, Req 02) when the packet leaves the list.
#![tactic(auto)]

ghost use Rattle.std.specs.Prelude.{◌≡◌};
ghost use Rattle.protocol.specs.Contexts.{has_row, released, leaving, dropping_row};

use protocol::Decision;
use waiting::Packet;

// Whether the row of a packet of a context holds 2 to 8 numbers, objects until the read is answered. In every run it does.
#[tactic(auto, unfolding(protocol::specs::Contexts::has_row))]
pub fn has_row(opens: &[u32; operations::CELLS], p: Packet) -> bool
    ensures { result ≡ has_row opens.now p }
{
    if !messages::is_of_context(p) {
        return true;
    }
    let v = contexts::load(opens, p.value);
    if messages::is_context_reply(p) {
        contexts::is_count(v.count)
    } else {
        contexts::is_context(v)
    }
}

#[tactic(auto, unfolding(protocol::specs::Contexts::released))]
fn release(opens: &mut [u32; operations::CELLS], p: Packet)
    ensures { opens.new ≡ released opens.old p }
{
    if messages::is_of_context(p) {
        contexts::free(opens, p.value);
    }
}

// The packet leaves the list, and its row is free.
#[tactic(auto, unfolding(protocol::specs::Contexts::leaving))]
pub fn leave(opens: &mut [u32; operations::CELLS], p: Packet, at: usize) -> Decision
    ensures { (result ≡ (leaving opens.old p at).decision) × (opens.new ≡ (leaving opens.old p at).opens) }
{
    release(opens, p);
    decisions::drop_packet(at)
}

#[tactic(auto, unfolding(protocol::specs::Contexts::dropping_row))]
pub fn drop_row(opens: &mut [u32; operations::CELLS], at: usize, r: u32) -> Decision
    ensures { (result ≡ (dropping_row opens.old at r).decision) × (opens.new ≡ (dropping_row opens.old at r).opens) }
{
    contexts::free(opens, r);
    decisions::drop_packet(at)
}
