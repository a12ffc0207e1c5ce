//! The words by which RESULT tells why a command was refused. None of them is a ticket's number.

/// There is no ticket of that number.
pub const NO_SUCH_TICKET: u32 = 0xffff_ffff;

/// CLONE of a ticket that was cloned before.
pub const ALREADY_CLONED: u32 = 0xffff_fffe;

/// JOIN of a ticket that was not cloned.
pub const NOT_CLONED: u32 = 0xffff_fffd;

/// TICKET for no child, ZERO of no page or of one that is not there, or EXIT with more than 64 bytes or with one that
/// is not there.
pub const BAD_ARGUMENT: u32 = 0xffff_fffc;

/// TICKET where the machine has too little left for one child.
pub const NOTHING_GRANTED: u32 = 0xffff_fffb;

/// There is no such command.
pub const UNKNOWN_COMMAND: u32 = 0xffff_fffa;

/// The numbers of tickets are below this one.
pub const TICKETS_END: u32 = 0xffff_fffa;
