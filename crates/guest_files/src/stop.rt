//! Why a command stops, and the numbers by which that is told.

ghost use Rattle.std.specs.Prelude.{◌≡◌};
ghost use Rattle.guest_files.specs.declared.stop.Stop.TheVariants as stop;

use cow_disk::{MAX_SECTORS, SECTOR_SIZE};
use std::alloc::AllocError;

/// The most bytes of an image: 16 MiB.
pub const MAX_IMAGE: usize = 16 * 1024 * 1024;

/// The most bytes of a disk.
pub const MAX_DISK: usize = SECTOR_SIZE * MAX_SECTORS as usize;

/// The refusal of an image that is over `MAX_IMAGE` bytes.
pub const TOO_LONG: u32 = 13;

/// The refusal of a disk that is over `MAX_DISK` bytes.
pub const DISK_TOO_LONG: u32 = 1;

/// The refusal of a disk that is no whole number of sectors.
pub const DISK_NOT_SECTORS: u32 = 2;

/// The refusal of an input that is over `MAX_INPUT` bytes.
pub const INPUT_TOO_LONG: u32 = 3;

/// The kind of a script that is over `MAX_SCRIPT` bytes. No line of it is looked at: its line is 0.
pub const SCRIPT_TOO_LONG: u32 = 6;

/// The load of the image.
pub const IMAGE_LOAD: u32 = 1;

/// The load of the disk.
pub const DISK_LOAD: u32 = 2;

/// The load of the input.
pub const INPUT_LOAD: u32 = 3;

/// The load of the script.
pub const SCRIPT_LOAD: u32 = 4;

/// Why a command did not write its text whole.
#[derive(Drop)]
pub enum Stop {
    /// A load had a fault, with its number.
    ReadFault(u32),
    /// The image is refused, with the number of the refusal.
    ImageRefused(u32),
    /// The disk or the input is refused, with the number of the refusal.
    DataRefused(u32),
    /// The script is refused, with the number of a line, and the kind of what is not in form there.
    ScriptRefused { line: u32, kind: u32 },
    /// The sink had a fault.
    WriteFault,
    /// A wire gave no reply for too long.
    Wire,
    /// Want of memory.
    Memory,
}

impl From<AllocError> for Stop {
    ghost from_gives = { λ _ given. given ≡ stop.Memory };

    fn from(_error: AllocError) -> Stop {
        Stop::Memory
    }
}
