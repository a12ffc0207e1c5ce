//! Tests of public calls on shared lists, disks, pages, images of programs, the RAM of guests, frames, descriptors,
//! depots and fetches, of what no clause says: that those which may want memory succeed where there is some, that pages
//! and sectors are really shared, that bytes lie where the formats have them, that values move between threads, and which
//! numbers the definitions' constants are. They stand here and not in the crates of the calls, since a crate with tests
//! is proved twice, and this one has nothing else.
#![tactic(auto)]

#[cfg(test)]
mod changes;
#[cfg(test)]
mod cow_disk_tests;
#[cfg(test)]
mod elf_load_tests;
#[cfg(test)]
mod equal;
#[cfg(test)]
mod fetch_proto_tests;
#[cfg(test)]
mod freezes;
#[cfg(test)]
mod guest_mem_tests;
#[cfg(test)]
mod host_fetch_tests;
#[cfg(test)]
mod image_depot_tests;
#[cfg(test)]
mod numbers;
#[cfg(test)]
mod page_frames_tests;
#[cfg(test)]
mod parcels;
#[cfg(test)]
mod process;
#[cfg(test)]
mod shared_leaves_tests;
#[cfg(test)]
mod token;
#[cfg(test)]
mod vm_descriptor_tests;
#[cfg(test)]
mod waiting;
