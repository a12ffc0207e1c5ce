//! The registers of the block port, by offset, and its commands.

/// The number of the sector that the next command reads or writes.
pub const BLOCK_SECTOR: u32 = 0;

/// A word that is stored here is a command.
pub const BLOCK_COMMAND: u32 = 4;

/// What became of the last command.
pub const BLOCK_STATUS: u32 = 8;

/// How many sectors the disk has.
pub const BLOCK_COUNT: u32 = 12;

/// The bytes of a sector.
pub const BLOCK_BUFFER: u32 = 0x200;

/// The bytes of the port's registers.
pub const BLOCK_SIZE: u32 = 0x400;

/// The command that reads a sector into the buffer.
pub const READ_COMMAND: u32 = 1;

/// The command that writes the buffer to a sector.
pub const WRITE_COMMAND: u32 = 2;
