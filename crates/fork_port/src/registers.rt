//! The registers of the fork port, by offset, and its commands.

/// The first argument of the next command.
pub const FORK_FIRST_ARGUMENT: u32 = 0;

/// The second argument of the next command.
pub const FORK_SECOND_ARGUMENT: u32 = 4;

/// A word that is stored here is a command.
pub const FORK_COMMAND: u32 = 8;

/// What became of the last command.
pub const FORK_RESULT: u32 = 12;

/// 0 in a machine that started from a program, and else which child of its ticket the machine is, from 1.
pub const FORK_CLONE_ID: u32 = 16;

/// What the machine can still give to tickets.
pub const FORK_ALLOT: u32 = 20;

/// Which child of the last join the registers of joins tell of, from 1.
pub const FORK_JOIN_SELECT: u32 = 24;

/// How that child ended: 0 where there is none such, 1 by EXIT, 2 by its limit.
pub const FORK_JOIN_KIND: u32 = 28;

/// The value with which that child ended, and 0 where it has none.
pub const FORK_JOIN_VALUE: u32 = 32;

/// How many children the last ticket was granted.
pub const FORK_GRANTED: u32 = 36;

/// How many bytes that child handed over, and 0 where there is none such.
pub const FORK_JOIN_LENGTH: u32 = 44;

/// From here on stand these bytes, and zeros behind them.
pub const FORK_JOIN_BYTES: u32 = 0x40;

/// The bytes of the fork port's registers.
pub const FORK_SIZE: u32 = 128;

/// The command that asks for a ticket: for how many children, and with what share for each.
pub const TICKET_COMMAND: u32 = 1;

/// The command that makes the children of a ticket.
pub const CLONE_COMMAND: u32 = 2;

/// The command that waits for the children of a ticket to end.
pub const JOIN_COMMAND: u32 = 3;

/// The command that drops the children of a ticket.
pub const KILL_COMMAND: u32 = 4;

/// The command that ends the machine, with the first argument as its value.
pub const EXIT_COMMAND: u32 = 5;

/// The command that makes pages read as zeros: from which one, and how many.
pub const ZERO_COMMAND: u32 = 6;

/// The low byte of each command that ends the machine as EXIT does and hands over bytes of RAM: their address is
/// the second argument, and how many they are the rest of the command.
pub const HAND_OVER_COMMAND: u32 = 7;
