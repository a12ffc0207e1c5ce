//! The files of a guest that is generated from a seed.

ghost use Rattle.std.specs.Prelude.{◌≡◌, ◌*◌, ◌≤◌, vec_len, IfOk};
ghost use Rattle.cow_disk.specs.declared.disk.TheConstants.{SECTOR_SIZE};
ghost use Rattle.flat_memory.specs.Flat.{zeros};
ghost use Rattle.command_texts.specs.Text.{generated_files};

use cow_disk::SECTOR_SIZE;
use guest_files::GuestFiles;
use guest_gen::guest_of;
use std::alloc::{AllocError, Global};

/// The sectors of the disk of a generated guest.
pub const SECTORS: usize = 16;

/// The image of the guest of a seed, and its disk.
#[tactic(auto, unfolding(crate::specs::Text::generated_files))]
pub fn generated_files(alloc: Global, seed: u32) -> Result<GuestFiles, AllocError>
    ensures { IfOk result (λ files. files ≡ generated_files seed) }
{
    let image = guest_of(alloc, seed)?;
    let disk = zero_sectors(alloc, SECTORS)?;
    Ok(GuestFiles::new(image, disk, Vec::new(alloc)))
}

/// So many sectors of zeros.
#[tactic(auto, unfolding(flat_memory::specs::Flat::zeros))]
fn zero_sectors(alloc: Global, count: usize) -> Result<Vec<u8>, AllocError>
    requires { count ≤ SECTORS }
    ensures zeros { IfOk result (λ bytes. bytes.items ≡ zeros (SECTOR_SIZE * count)) }
    ensures len { IfOk result (λ bytes. vec_len bytes ≡ SECTOR_SIZE * count) }
{
    Vec::from_elem(alloc, 0, SECTOR_SIZE * count)
}
