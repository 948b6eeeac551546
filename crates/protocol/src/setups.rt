// The start: what a step sets up, and whether that is refused.
ghost use Rattle.std.specs.Prelude.{◌≡◌};
ghost use Rattle.protocol.specs.Starts.{setup_of, start_refused, start_refusal, start_answer};

use crate::{Answer, Refusal, Setup, Step};
use limits::REPLICAS;

// What a step sets up: nothing, unless it is a start.
pub fn setup_of(x: Step) -> Setup
    ensures { result ≡ setup_of x }
{
    match x {
        Step::Start(b) => b,
        _ => Setup::Missing,
    }
}

// Whether a start is refused.
#[tactic(auto, unfolding(crate::specs::Starts::start_refused))]
pub fn is_refused(b: Setup) -> bool
    ensures { result ≡ start_refused b }
{
    match b {
        Setup::Missing => true,
        Setup::Chain(n) => n == 0 || REPLICAS < usize::from(n),
        Setup::Quorum(n) => !matches!(n, 3 | 5 | 7),
    }
}

// The refusal of a start that is refused.
pub fn refusal(b: Setup) -> Refusal
    ensures { result ≡ start_refusal b }
{
    match b {
        Setup::Missing => Refusal::Format,
        Setup::Chain(_) | Setup::Quorum(_) => Refusal::Replicas,
    }
}

// What a start answers.
pub fn answer(b: Setup) -> Answer
    ensures { result ≡ start_answer b }
{
    if is_refused(b) {
        return Answer::Refused(refusal(b));
    }
    Answer::Done
}
