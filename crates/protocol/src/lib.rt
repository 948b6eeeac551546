// What the step machine is handed, what it answers, and what it decides between: types. crates/messages has the packets that hold messages, crates/decisions the commonest decisions.
// specs/ says what each step does.
#![tactic(auto)]

pub mod answers;
pub mod setups;

use contexts::{Context, Objects};
use limits::{Freshness, HeldFreshness, Number, Object, Operation, Replica, Stamp, Value};
use store::Write;
use waiting::Edit;

// What a start sets up: none, where there is no start record; or a chain of so many replicas (document 01, tag 32), or a quorum store of so many (document 02, Req 11, tag 33).
// By hand: a case of its own for a start that is missing, and no Option: start_refused, start_refusal and new_store of specs/ give it a clause beside the two stores'.
#[derive(Clone, Copy)]
pub enum Setup {
    Missing,
    Chain(u8),
    Quorum(u8),
}

// Document 01, 'Steps and their records'. The fields have the widths that the records give them.
#[derive(Clone, Copy)]
pub enum Step {
    Start(Setup),
    BeginRead(u16),
    BeginWrite(u16, u32),
    Deliver(u16, u8),
    Lose(u16),
    Repeat(u16),
    Advance(u8),
    Replace(u16),
    Tell(u8),
    Remove(u8),
    GiveUp(u32),
    BeginContext(Objects),
    Join,
    Copy,
    Execute,
}

// Document 01, 'Turned down': a refusal for each row of the table, by its number.
#[derive(Clone, Copy)]
pub enum Refusal {
    Format = 1,
    Replicas = 2,
    ObjectNumber = 3,
    OperationsUsedUp = 4,
    OpenFull = 5,
    WaitingFull = 6,
    NoPacket = 7,
    UnstampedRepeat = 8,
    NotLive = 9,
    NoLinkedWrite = 10,
    SwitchNumber = 11,
    LastReplica = 12,
    NotOpen = 13,
    InputTooLong = 14,
    BufferTooShort = 15,
    SameObject = 16,
    ChainFull = 17,
    JoinUnderWay = 18,
    NoJoin = 19,
    WrongStore = 23,
    NothingToExecute = 24,
}

// A step was done; or done, and it finished an operation with a value and what a read says of a pending write, or a read of a whole context with its values; or refused.
// By hand: four cases, and no Result with a refusal as its error: the theorems of linearizability and the exported session tell them apart by these names.
#[derive(Clone, Copy)]
pub enum Answer {
    Done,
    Finished(Operation, Value, Freshness),
    FinishedContext(Operation, Context),
    Refused(Refusal),
}

// A packet by its kind: document 01, 'What delivery does'. The stamp of a normal read and of a reply is that of the pending write that the read goes round, (0,0) where
// there is none. Four are of a read of a whole context, whose row in crates/contexts they name. An acknowledgement is of a follower, and says how many entries of the leader's log it has.
// By hand: a case for what is no message, and no Option: message_of of specs/ gives every packet a message, and a packet that C lends may be of any kind.
#[derive(Clone, Copy)]
pub enum Message {
    UnstampedWrite(Operation, Object, Value),
    SwitchRead(Operation, Object),
    StampedWrite(Replica, Write),
    DirectRead(Replica, Number, Stamp, Operation, Object),
    NormalRead(Replica, Operation, Object, Stamp),
    Completion(Object, Stamp),
    Reply(Operation, Value, Stamp, HeldFreshness),
    ContextRead(Operation, u32),
    DirectContext(Replica, Number, Stamp, Operation, u32),
    NormalContext(Replica, Operation, u32),
    ContextReply(Operation, u32),
    Acknowledgement(Replica, u32),
    Unknown,
}

// What is decided of a step, before the waiting list is edited.
#[derive(Clone, Copy)]
pub struct Decision {
    pub answer: Answer,
    pub edit: Edit,
}

// What a step answers, how many packets then wait, and the stored number of counting marks.
#[derive(Clone, Copy)]
pub struct Stepped {
    pub answer: Answer,
    pub count: usize,
    pub marks: u32,
}
