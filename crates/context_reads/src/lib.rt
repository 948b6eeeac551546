// Reads of several objects (document 02, Req 02) at the switch.
#![tactic(auto)]

ghost use Rattle.std.specs.Prelude.{◌≡◌};
ghost use Rattle.lists.specs.{all_of};
ghost use Rattle.contexts.specs.{numbers_of};
ghost use Rattle.protocol.specs.Reads.{is_unmarked, goes_directly};
ghost use Rattle.protocol.specs.Contexts.{context_read};

use contexts::Context;
use limits::{Object, Operation};
use protocol::{Decision, Message};
use switch::cells;

#[tactic(auto, unfolding(protocol::specs::Reads::is_unmarked))]
fn is_unmarked(switch: &[u32; switch::CELLS], x: Object) -> bool
    ensures { result ≡ is_unmarked switch.now x }
{
    cells::lookup(switch, x) == 0
}

// Whether no object has a counting mark.
fn none_marked(switch: &[u32; switch::CELLS], v: Context) -> bool
    ensures { result ≡ all_of (is_unmarked switch.now) (numbers_of v) }
{
    (0..contexts::size(v)).all(|i| is_unmarked(switch, contexts::place(v, i)))
}

#[tactic(auto, unfolding(protocol::specs::Reads::goes_directly))]
fn goes_directly(switch: &[u32; switch::CELLS], v: Context) -> bool
    ensures { result ≡ goes_directly switch.now (numbers_of v) }
{
    cells::is_direct(switch) && none_marked(switch, v)
}

#[tactic(auto, unfolding(protocol::specs::Contexts::context_read))]
// By hand: the three lent arrays one by one, as crates/dispatch says.
pub fn switch_read(
    switch: &[u32; switch::CELLS],
    store: &[u32; store::CELLS],
    opens: &mut [u32; operations::CELLS],
    at: usize,
    choice: u8,
    o: Operation,
    r: u32,
) -> Decision
    ensures { (result ≡ (context_read switch.now store.now opens.old at choice o r).decision)
        × (opens.new ≡ (context_read switch.now store.now opens.old at choice o r).opens) }
{
    if !goes_directly(switch, contexts::load(opens, r)) {
        return decisions::pass_on(
            at,
            Message::NormalContext(chain::read_replica_number(store), o, r),
        );
    }
    let to = chain::choose(store, choice);
    let number = cells::number(switch);
    decisions::pass_on(
        at,
        Message::DirectContext(to, number, cells::committed(switch), o, r),
    )
}
