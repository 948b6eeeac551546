// The remainder of a choice by the number of live replicas, looked up in a table: no division (document 02, Req 05).
#![tactic(auto)]

ghost use Rattle.std.specs.Prelude.{◌≡◌, ◌%◌, ◌≤◌};

mod rows;

use rows::{BY_EIGHT, BY_FIVE, BY_FOUR, BY_ONE, BY_SEVEN, BY_SIX, BY_THREE, BY_TWO};

// Of other counts than 1 to 8 nothing is promised but an answer.
// By hand: `choice % n` is one line, but the papers name a constant table of 2,048 remainders in place of a division.
pub fn remainder(choice: u8, n: usize) -> u8
    ensures { (1 ≤ n) → (n ≤ 8) → result ≡ choice % n }
{
    let i = usize::from(choice);
    match n {
        1 => BY_ONE[i],
        2 => BY_TWO[i],
        3 => BY_THREE[i],
        4 => BY_FOUR[i],
        5 => BY_FIVE[i],
        6 => BY_SIX[i],
        7 => BY_SEVEN[i],
        8 => BY_EIGHT[i],
        _ => 0,
    }
}
