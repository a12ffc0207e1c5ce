//! The files of a guest: which loads are made, in which order, and why a command stops.
#![tactic(auto)]

mod files;
mod stop;

pub use files::{GuestFiles, load_file, read_guest};
pub use stop::{
    DISK_LOAD, DISK_NOT_SECTORS, DISK_TOO_LONG, IMAGE_LOAD, INPUT_LOAD, INPUT_TOO_LONG, MAX_DISK,
    MAX_IMAGE, SCRIPT_LOAD, SCRIPT_TOO_LONG, Stop, TOO_LONG,
};
