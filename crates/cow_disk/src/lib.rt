//! Disks of 512-byte sectors, in pages of eight. A frozen disk is shared by all disks that are opened from it, and a write
//! gives the disk that one sector for its own. Pages may be absent.
#![tactic(auto)]

mod arrived;
mod disk;
mod error;
pub mod laws;
mod sector;
mod shared;
mod table;

pub use arrived::Arrived;
pub use disk::{Disk, FrozenDisk, MAX_SECTORS, PAGE_SECTORS, SECTOR_SIZE};
pub use error::{DiskError, ReadError, WriteError};
