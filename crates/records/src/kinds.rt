// The table of document 01, 'Steps and their records', by kinds of step: 0 is the start of a chain, 1 to 14 have their tags' numbers, and 15 is the start of a quorum store.
ghost use Rattle.std.specs.Prelude.{◌≡◌};
ghost use Rattle.records.specs.Records.{kind_of_tag, tag_of, content_length, is_context_length, is_short_give_up, is_length, setup_kind, kind_of};

use protocol::{Setup, Step};

// By hand: a kind is a number, and NO_STEP one that stands for none, since document 01 gives the kinds as tags' numbers and lengths, and `kind_of_tag`, `lengths` and `step_of` in
// specs/Records.antt, which the contracts and theorems name, decide over them.
// The kinds of step.
const KINDS: usize = 16;

// Req 02: a read of a whole context.
pub const CONTEXT_KIND: usize = 11;

// Giving up an operation.
pub const GIVE_UP_KIND: usize = 10;

// Req 11: the start of a quorum store.
pub const QUORUM_KIND: usize = 15;

// Stands for no step.
pub const NO_STEP: usize = 16;

// The length of the content for each kind of step, as it is written; a read of a whole context has a rule of its own.
const LENGTHS: [u16; KINDS] = [1, 2, 6, 3, 2, 2, 1, 2, 1, 1, 4, 0, 0, 0, 0, 1];

pub fn content_length(kind: usize) -> u16
    ensures { result ≡ content_length kind }
{
    LENGTHS.get(kind).copied().unwrap_or(0)
}

// Req 02: 2 to 8 objects, two bytes each.
fn is_context_length(n: u16) -> bool
    ensures { result ≡ is_context_length n }
{
    n % 2 == 0 && contexts::is_count(u32::from(n / 2))
}

// Req 07: whether this is a give-up of two bytes, which is read and never written.
pub fn is_short_give_up(kind: usize, n: u16) -> bool
    ensures { result ≡ is_short_give_up kind n }
{
    kind == GIVE_UP_KIND && n == 2
}

// Whether the content of a record of this kind can have this length; another is refusal 1.
pub fn is_length(kind: usize, n: u16) -> bool
    ensures { result ≡ is_length kind n }
{
    if kind == CONTEXT_KIND {
        is_context_length(n)
    } else {
        is_short_give_up(kind, n) || n == content_length(kind)
    }
}

// The kind of step that a tag names, or none (refusal 1).
pub fn kind_of_tag(tag: u8) -> usize
    ensures { result ≡ kind_of_tag tag }
{
    match tag {
        32 => 0,
        33 => QUORUM_KIND,
        1..=14 => tag as usize,
        _ => NO_STEP,
    }
}

// The tag of a kind of step.
pub fn tag_of(kind: usize) -> u8
    ensures { result ≡ tag_of kind }
{
    match kind {
        15 => 33,
        1..=14 => kind as u8,
        _ => 32,
    }
}

fn setup_kind(b: Setup) -> usize
    ensures { result ≡ setup_kind b }
{
    match b {
        Setup::Missing => NO_STEP,
        Setup::Chain(_) => 0,
        Setup::Quorum(_) => QUORUM_KIND,
    }
}

pub fn kind_of(step: Step) -> usize
    ensures { result ≡ kind_of step }
{
    match step {
        Step::Start(b) => setup_kind(b),
        Step::BeginRead(_) => 1,
        Step::BeginWrite(_, _) => 2,
        Step::Deliver(_, _) => 3,
        Step::Lose(_) => 4,
        Step::Repeat(_) => 5,
        Step::Advance(_) => 6,
        Step::Replace(_) => 7,
        Step::Tell(_) => 8,
        Step::Remove(_) => 9,
        Step::GiveUp(_) => GIVE_UP_KIND,
        Step::BeginContext(_) => CONTEXT_KIND,
        Step::Join => 12,
        Step::Copy => 13,
        Step::Execute => 14,
    }
}
