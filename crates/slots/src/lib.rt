// An object's slots, and the tests of one slot.
#![tactic(auto)]

ghost use Rattle.std.specs.Prelude.{◌≡◌, ◌<◌};
ghost use Rattle.slots.specs.{first_slot, second_slot, third_slot, holds_object, is_free, holds_above, is_completed};

use limits::{Object, Stamp};

// The object's slot in each stage.
// By hand: three functions and not one over a const stage and divisor, as the document's rule has no number in common: `slot::<2, 64>(o)` would be no plainer than `third_slot(o)`, and its
// contract would need a definition of its own.
pub fn first_slot(o: Object) -> usize
    ensures { (result ≡ first_slot o) × (result < 48) }
{
    (o % 16) as usize
}

pub fn second_slot(o: Object) -> usize
    ensures { (result ≡ second_slot o) × (result < 48) }
{
    16 + (o / 16 % 16) as usize
}

pub fn third_slot(o: Object) -> usize
    ensures { (result ≡ third_slot o) × (result < 48) }
{
    32 + (o / 64 % 16) as usize
}

pub fn holds(object: u32, stamp: Stamp, o: Object) -> bool
    ensures { result ≡ holds_object object stamp o }
{
    stamp != 0 && object == o
}

pub fn is_free(stamp: Stamp, committed: Stamp) -> bool
    ensures { result ≡ is_free stamp committed }
{
    !stamp::above(stamp, committed)
}

pub fn holds_above(object: u32, stamp: Stamp, o: Object, c: Stamp) -> bool
    ensures { result ≡ holds_above object stamp o c }
{
    holds(object, stamp, o) && stamp::above(stamp, c)
}

pub fn is_completed(object: u32, stamp: Stamp, o: Object, t: Stamp) -> bool
    ensures { result ≡ is_completed object stamp o t }
{
    holds(object, stamp, o) && !stamp::above(stamp, t)
}
