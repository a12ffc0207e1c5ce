//! The words by which RESULT tells what became of a command.

/// The word was sent, or a word was received.
pub const DONE: u32 = 0;

/// PEER names no other child of the ticket.
pub const NO_SUCH_SIBLING: u32 = 0xffff_fffc;

/// There is no such command.
pub const UNKNOWN_COMMAND: u32 = 0xffff_fffa;

/// No word is left to receive, and the sibling has ended.
pub const SIBLING_ENDED: u32 = 0xffff_fff9;
