//! The numbers that definitions take from constants of the code, as the formats have them.

use crate::equal::are_equal;
use console_port::MAX_INPUT;
use cow_disk::{MAX_SECTORS, SECTOR_SIZE};
use elf_load::{MAX_PAGES, MIN_PAGES, RAM_BASE};
use fetch_proto::FRAME_SIZE;
use page_frames::PAGE_SIZE;
use vm_descriptor::{MAX_CLONES, MAX_LIMIT, MAX_SHARE};

#[test]
fn limits_are_those_of_the_formats(rt: HostRuntime) {
    let counts = [MIN_PAGES, MAX_PAGES, MAX_SECTORS, MAX_CLONES, MAX_SHARE];
    are_equal(&rt, &counts, &[16, 16_384, 8192, 4096, 4095]);
    are_equal(&rt, &(RAM_BASE, MAX_LIMIT), &(0x8000_0000, 1_000_000_000));
}

#[test]
fn sizes_are_those_of_the_formats(rt: HostRuntime) {
    let sizes = [PAGE_SIZE, SECTOR_SIZE, FRAME_SIZE, MAX_INPUT];
    are_equal(&rt, &sizes, &[4096, 512, 4108, 65_536]);
}
