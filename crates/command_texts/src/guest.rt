//! The machine of a guest whose files are read is booted.

ghost use Rattle.std.specs.Prelude.{◌≡◌, ◌≤◌, [], length, IfOk};
ghost use Rattle.cow_disk.specs.Paged.{disk_over, IsWholeDisk};
ghost use Rattle.guest_files.specs.Parts.{Makes};
ghost use Rattle.world_core.specs.Told.{told_of};
ghost use Rattle.command_texts.specs.Text.{IsBooted, IsOfMachine, booted_paged, guest_image, image_beside};

use command_line::GuestWords;
use command_line::options::LIMIT;
use console_port::MAX_INPUT;
use cow_disk::{Disk, DiskError};
use elf_load::{ImageError, Loaded, load_elf};
use forest_model::Options;
use guest_files::{DISK_NOT_SECTORS, GuestFiles, Stop};
use image_depot::Depot;
use std::alloc::{AllocError, Global};
use std::snapshot::Snapshot;
use vm_cell::Vm;
use vm_descriptor::{MAX_CLONES, MAX_LIMIT};
use world_core::World;

/// Boots the machine of a guest, and gives a world of it, and the machine as it was then. The images of its family will
/// be in the depot.
#[tactic(auto, unfolding(crate::specs::Text::guest_image))]
pub fn boot(
    alloc: Global,
    guest: &GuestWords<'_>,
    files: &GuestFiles,
    depot: &Depot,
) -> Result<(World, Snapshot<Vm>), Stop>
    ensures makes { Makes (guest_image guest.now files.now) (IsBooted depot.now guest.now files.now) result }
    ensures told { IfOk result (λ made. told_of made.0 ≡ []) }
{
    match load_elf(alloc, files.image(), guest.pages()) {
        Ok(image) => boot_image(alloc, guest, files, &image, depot),
        Err(ImageError::Refused(number)) => Err(Stop::ImageRefused(number)),
        Err(ImageError::Memory) => Err(Stop::Memory),
    }
}

/// Boots the machine of an image that is loaded.
fn boot_image(
    alloc: Global,
    guest: &GuestWords<'_>,
    files: &GuestFiles,
    image: &Loaded,
    depot: &Depot,
) -> Result<(World, Snapshot<Vm>), Stop>
    ensures makes { Makes (image_beside files.now image.now) (IsBooted depot.now guest.now files.now) result }
    ensures told { IfOk result (λ made. told_of made.0 ≡ []) }
{
    let disk = match Disk::from_bytes(alloc, files.disk()) {
        Ok(disk) => disk,
        Err(DiskError::NotSectors) => return Err(Stop::DataRefused(DISK_NOT_SECTORS)),
        Err(DiskError::Memory) => return Err(Stop::Memory),
        Err(DiskError::TooLong) => unreachable!(),
    };
    let options = Options {
        limit: guest.limit(),
        allot: guest.clones(),
    };
    let made = boot_machine(alloc, image, disk, files.input(), options, depot)?;
    Ok(made)
}

/// Boots a machine with a disk of which every page is here. It is then the only one of a world.
fn boot_machine(
    alloc: Global,
    image: &Loaded,
    disk: Disk,
    input: &[u8],
    options: Options,
    depot: &Depot,
) -> Result<(World, Snapshot<Vm>), AllocError>
    requires input { length input.now ≤ MAX_INPUT }
    requires least { LIMIT.least ≤ options.limit }
    requires most { options.limit ≤ MAX_LIMIT }
    requires clones { options.allot ≤ MAX_CLONES }
    requires disk_whole { IsWholeDisk disk }
    ensures booted { IfOk result (IsOfMachine depot.now (booted_paged image.now (disk_over disk []) input.now options)) }
    ensures told { IfOk result (λ made. told_of made.0 ≡ []) }
{
    let vm = Vm::boot(alloc, image, disk, input, options)?;
    let first = Snapshot::of(&vm);
    let world = World::new(alloc, vm, depot)?;
    Ok((world, first))
}
