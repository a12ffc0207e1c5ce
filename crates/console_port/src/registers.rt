//! The registers of the console, by offset, and their bits. They lie where a 16550 UART has them
//! (PC16550D data sheet, National Semiconductor 1995, section 8.0).

/// The bytes of the console's registers.
pub const CONSOLE_SIZE: u32 = 8;

/// A read takes the next byte of the input, and a write puts a byte out.
pub const CONSOLE_DATA: u32 = 0;

/// Kept as written.
pub const CONSOLE_LINE_CONTROL: u32 = 3;

/// Tells whether input is left.
pub const CONSOLE_LINE_STATUS: u32 = 5;

/// The bit of the line control that puts the divisor latch in place of the data. The console has no
/// divisor latch, so a read is 0 then, and a write is dropped.
pub const DIVISOR_LATCH: u8 = 0x80;

/// The bits of the line status that say that a byte can be put out. They are always set.
pub const TRANSMITTER_IDLE: u32 = 0x60;

/// The bit of the line status that says that input is left.
pub const DATA_READY: u32 = 1;
