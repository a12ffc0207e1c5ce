//! A guest that wants one page of its RAM, and does nothing else. Its image has no disk.

ghost use Rattle.std.specs.Prelude.{◌≡◌, []};
ghost use Rattle.memory_tests.specs.Wants.{wanted_of, HasNoDisk};

use guest_mem::GuestMem;
use image_depot::{Arrived, Depot, ImageKey, Parcel, Receiver};
use std::alloc::{AllocError, Global};
use std::marker::Model;

#[derive(Drop)]
pub struct Guest {
    memory: GuestMem,
    page: u32,
}

impl Model for Guest {
    ghost use Rattle.memory_tests.specs.Wants.{Waiting, HasNoDisk};

    ghost Value = { Waiting };

    ghost view = { λ g. record { memory = g.memory; page = g.page } };

    ghost invariant = { λ g. HasNoDisk g.memory.key };
}

impl Guest {
    /// A guest with this memory, of an image without a disk, that wants this page of it.
    pub fn new(memory: GuestMem, page: u32) -> Guest
        requires { HasNoDisk memory.key }
        ensures { result.memory ≡ memory }
    {
        Guest { memory, page }
    }

    pub fn memory(&self) -> &GuestMem
        ensures { result.now ≡ self.now.memory }
    {
        &self.memory
    }
}

impl Receiver for Guest {
    ghost here = { λ g. g.memory.here };

    ghost key = { λ g. g.memory.key };

    ghost wanted = { λ g. wanted_of g.memory.here g.page };

    ghost rest = { λ g. record g { memory = record g.memory { here = [] } } };

    fn key(&self) -> Option<&ImageKey> {
        // The call tells that the absent pages are of the image of the key.
        let _ = self.memory.pages();
        self.memory.key()
    }

    fn wanted(&self) -> Option<u32> {
        if self.page >= self.memory.pages() {
            return None;
        }
        if self.memory.is_here(self.page) {
            return None;
        }
        Some(self.page)
    }

    fn is_here(&self, page: u32) -> bool {
        self.memory.is_here(page)
    }

    fn arrive(
        &mut self,
        alloc: Global,
        depot: &Depot,
        parcel: &Parcel,
    ) -> Result<Arrived, AllocError> {
        let Some(key) = self.memory.key() else {
            return Ok(Arrived::Had(parcel.page()));
        };
        if key.number() != parcel.key().number() {
            return Ok(Arrived::Had(parcel.page()));
        }
        depot.agree(key, parcel.key());
        // The call tells that its page is one of the image, which has none but those of RAM.
        let _ = parcel.bytes();
        self.memory.arrive(alloc, depot, parcel)
    }
}
