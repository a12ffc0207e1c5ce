//! The registers of the sibling port, by offset, and its commands.

/// Which child of the ticket the next command talks to, from 1.
pub const SIBLING_PEER: u32 = 0;

/// The word that is sent, and the one that was received.
pub const SIBLING_DATA: u32 = 4;

/// A word that is stored here is a command.
pub const SIBLING_COMMAND: u32 = 8;

/// What became of the last command.
pub const SIBLING_RESULT: u32 = 12;

/// How many children the ticket made, this machine with them; 0 in a machine that started from a program.
pub const SIBLING_COUNT: u32 = 16;

/// The bytes of the sibling port's registers.
pub const SIBLING_SIZE: u32 = 20;

/// The command that sends DATA to the sibling.
pub const SEND_COMMAND: u32 = 1;

/// The command that receives a word of the sibling in DATA.
pub const RECEIVE_COMMAND: u32 = 2;
