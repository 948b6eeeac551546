// The numbers of the refusals, and of what a read says of a pending write.
ghost use Rattle.std.specs.Prelude.{◌≡◌};
ghost use Rattle.protocol.specs.Answers.{refusal_number};

use crate::Refusal;
use limits::Freshness;

// What a finished read says of the pending write that it went round.
// By hand: numbers, and no enum: a packet that C lends holds any 16 bits in their place, and the session gives those back.
pub const NONE: Freshness = 0;

pub const OLD: Freshness = 1;

pub const NEW: Freshness = 2;

// The number that document 01 gives a refusal.
// By hand: a function with a name. `u8::from(refusal)` would be no shorter, and the clauses of those that print or tell a refusal name this number `refusal_number` too.
pub fn refusal_number(r: Refusal) -> u8
    ensures { result ≡ refusal_number r }
{
    r as u8
}
