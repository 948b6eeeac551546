// The kinds of packets, of the messages by these names.
// By hand: numbers, and no enum: packets lie in memory that C lends, where a kind may be any byte. With an enum and TryFrom each delivery would match twice, the number and then the enum.
pub const UNSTAMPED_WRITE: u8 = 1;

pub const SWITCH_READ: u8 = 2;

pub const STAMPED_WRITE: u8 = 3;

pub const DIRECT_READ: u8 = 4;

pub const NORMAL_READ: u8 = 5;

pub const COMPLETION: u8 = 6;

pub const REPLY: u8 = 7;

pub const CONTEXT_READ: u8 = 8;

pub const DIRECT_CONTEXT: u8 = 9;

pub const NORMAL_CONTEXT: u8 = 10;

pub const CONTEXT_REPLY: u8 = 11;

pub const ACKNOWLEDGEMENT: u8 = 12;
