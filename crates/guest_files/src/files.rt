//! The files of a guest are read.

ghost use Rattle.std.specs.Prelude.{◌≡◌, ◌≤◌, [], ◌∷◌, length, vec_len, IfErr, IfOk, IsSome};
ghost use Rattle.std.specs.Option.{option_map};
ghost use Rattle.io_edge.specs.Outside.{HasRisen};
ghost use Rattle.guest_files.specs.Reads.{Refusal, file_read, guest_read, option_read};
ghost use Rattle.guest_files.specs.Parts.{AreAsked, Gives, HasMade, IsFaultOf, IsGuestLoad, IsTooLong, StopsAt, StopsEarly, guest_loads, load_if, load_of};

use crate::stop::{
    DISK_LOAD, DISK_TOO_LONG, IMAGE_LOAD, INPUT_LOAD, INPUT_TOO_LONG, MAX_DISK, MAX_IMAGE, Stop,
    TOO_LONG,
};
use command_line::GuestWords;
use console_port::MAX_INPUT;
use io_edge::{Shelf, ShelfError};
use std::alloc::Global;
use std::marker::Model;

/// The files of a guest, of which the disk and the input are not too long.
#[derive(Drop)]
pub struct GuestFiles {
    image: Vec<u8>,
    disk: Vec<u8>,
    input: Vec<u8>,
}

impl Model for GuestFiles {
    ghost use Rattle.std.specs.Prelude.{◌≤◌, vec_len};
    ghost use Rattle.console_port.specs.declared.port.TheConstants.{MAX_INPUT};
    ghost use Rattle.guest_files.specs.declared.stop.TheConstants.{MAX_DISK};
    ghost use Rattle.guest_files.specs.Reads.{Guest};

    ghost Value = { Guest };

    ghost view = { λ f. record { image = f.image.items; disk = f.disk.items; input = f.input.items } };

    ghost invariant = { λ f. (vec_len f.disk ≤ MAX_DISK) × (vec_len f.input ≤ MAX_INPUT) };
}

impl GuestFiles {
    /// The files of a guest that is not read.
    pub fn new(image: Vec<u8>, disk: Vec<u8>, input: Vec<u8>) -> GuestFiles
        requires disk { vec_len disk ≤ MAX_DISK }
        requires input { vec_len input ≤ MAX_INPUT }
        ensures { result ≡ record { image = image.items; disk = disk.items; input = input.items } }
    {
        GuestFiles { image, disk, input }
    }

    /// The bytes of the image.
    pub fn image(&self) -> &[u8]
        ensures { result.now ≡ self.now.image }
    {
        &self.image
    }

    /// The bytes of the disk, of which there are none where no disk is named.
    pub fn disk(&self) -> &[u8]
        ensures value { result.now ≡ self.now.disk }
        ensures most { length result.now ≤ MAX_DISK }
    {
        &self.disk
    }

    /// The bytes of the input, of which there are none where no input is named.
    pub fn input(&self) -> &[u8]
        ensures value { result.now ≡ self.now.input }
        ensures most { length result.now ≤ MAX_INPUT }
    {
        &self.input
    }
}

/// Reads the image, then the disk, and then the input.
pub fn read_guest<S: Shelf>(
    alloc: Global,
    guest: &GuestWords<'_>,
    shelf: &mut S,
) -> Result<GuestFiles, Stop>
    ensures gives { Gives INPUT_LOAD (λ load. IsGuestLoad guest.now load × HasRisen (S.faults shelf.old) (S.faults shelf.new)
        × IsFaultOf (guest_loads guest.now) load (S.asked shelf.old) (S.asked shelf.new))
        (option_map (guest_read guest.now) (S.files shelf.old)) (λ files told. files ≡ told) result }
    ensures same { S.files shelf.new ≡ S.files shelf.old }
    ensures counts { S.faults shelf.old ≤ S.faults shelf.new }
    ensures asked { HasMade (guest_loads guest.now) result (S.asked shelf.old) (S.asked shelf.new) }
    ensures stops { IfErr result StopsEarly }
{
    let too_long = Stop::ImageRefused(TOO_LONG);
    let image = load_file(alloc, shelf, guest.image(), IMAGE_LOAD, MAX_IMAGE, too_long)?;
    let too_long = Stop::DataRefused(DISK_TOO_LONG);
    let disk = load_named(alloc, shelf, guest.disk(), DISK_LOAD, MAX_DISK, too_long)?;
    let too_long = Stop::DataRefused(INPUT_TOO_LONG);
    let input = load_named(alloc, shelf, guest.input(), INPUT_LOAD, MAX_INPUT, too_long)?;
    Ok(GuestFiles { image, disk, input })
}

/// The bytes of a file for a load, of which there are none where no name is given.
fn load_named<S: Shelf>(
    alloc: Global,
    shelf: &mut S,
    name: Option<&str>,
    load: u32,
    most: usize,
    too_long: Stop,
) -> Result<Vec<u8>, Stop>
    ensures gives { (refusal : Refusal) → IsTooLong load too_long refusal
        → Gives load (λ at. ((at ≡ load) × IsSome (option_map (λ text. text.now) name.entry)) × HasRisen (S.faults shelf.old) (S.faults shelf.new)
        × IsFaultOf (load_if load (option_map (λ text. text.now) name.entry)) at (S.asked shelf.old) (S.asked shelf.new))
        (option_map (option_read load most refusal (option_map (λ text. text.now) name.entry)) (S.files shelf.old)) (λ bytes told. bytes.items ≡ told) result }
    ensures most { IfOk result (λ bytes. vec_len bytes ≤ most) }
    ensures same { S.files shelf.new ≡ S.files shelf.old }
    ensures counts { S.faults shelf.old ≤ S.faults shelf.new }
    ensures asked { AreAsked (load_if load (option_map (λ text. text.now) name.entry)) (S.asked shelf.old) (S.asked shelf.new) }
    ensures stops { IfErr result (StopsAt load too_long) }
{
    match name {
        Some(name) => load_file(alloc, shelf, name, load, most, too_long),
        None => Ok(Vec::new(alloc)),
    }
}

/// The bytes of a file for a load, at most so many. Where there are more, the program stops with `too_long`.
pub fn load_file<S: Shelf>(
    alloc: Global,
    shelf: &mut S,
    name: &str,
    load: u32,
    most: usize,
    too_long: Stop,
) -> Result<Vec<u8>, Stop>
    ensures gives { (refusal : Refusal) → IsTooLong load too_long refusal
        → Gives load (λ at. (at ≡ load) × HasRisen (S.faults shelf.old) (S.faults shelf.new)
        × IsFaultOf (load_of load name.now ∷ []) at (S.asked shelf.old) (S.asked shelf.new))
        (option_map (λ files. file_read load most refusal (files name.now)) (S.files shelf.old)) (λ bytes told. bytes.items ≡ told) result }
    ensures most { IfOk result (λ bytes. vec_len bytes ≤ most) }
    ensures same { S.files shelf.new ≡ S.files shelf.old }
    ensures counts { S.faults shelf.old ≤ S.faults shelf.new }
    ensures asked { AreAsked (load_of load name.now ∷ []) (S.asked shelf.old) (S.asked shelf.new) }
    ensures stops { IfErr result (StopsAt load too_long) }
{
    match shelf.load(alloc, name, most) {
        Ok(bytes) => Ok(bytes),
        Err(ShelfError::Fault) => Err(Stop::ReadFault(load)),
        Err(ShelfError::TooLong) => Err(too_long),
        Err(ShelfError::Memory) => Err(Stop::Memory),
    }
}
