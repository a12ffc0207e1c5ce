//! Images of RAM, the RAM of clones, and pages that come to them.

ghost use Rattle.std.specs.Prelude.{◌≡◌, ◌+◌, ◌/◌, ◌<◌, ◌≤◌, length, IfOk, OnOk, OnErr};
ghost use Rattle.shared_leaves.specs.Choices.{choice_steps};
ghost use Rattle.cow_disk.specs.Paged.{disk_over};
ghost use Rattle.vm_descriptor.specs.Descriptor.{IsRam as HasMap};
ghost use Rattle.image_depot.specs.Image.{page_count};
ghost use Rattle.image_depot.specs.Key.{image_of, IsKeyOf};
ghost use Rattle.guest_mem.specs.Ram.{IsDiskBased, IsRamOf, cloned, disk_below};
ghost use Rattle.guest_mem.specs.Answers.{Arrives};

use crate::memory::GuestMem;
use crate::table::table_of;
use console_port::Input;
use cow_disk::FrozenDisk;
use elf_load::{MAX_PAGES, MIN_PAGES};
use image_depot::{Arrived, Depot, Frozen, ImageKey, Parcel};
use page_frames::Entry;
use shared_leaves::Steps;
use std::alloc::{AllocError, Global};
use std::marker::Brand;
use std::sync::ledger::{Blank, Ledger};
use vm_descriptor::{CloneTable, Descriptor, MapForm};

impl GuestMem {
    /// The RAM of a clone, which starts with the image of its parent. Its blank pages alone are here.
    pub fn clone_of(
        alloc: Global,
        key: ImageKey,
        descriptor: &Descriptor,
    ) -> Result<GuestMem, AllocError>
        requires one_bit_a_page { HasMap descriptor.now }
        requires pages_of_image { descriptor.now.pages ≡ page_count (image_of key) }
        ensures { IfOk result (λ memory. memory ≡ cloned key descriptor.now.blank) }
    {
        GuestMem::clone_of_ledger::<Brand>(alloc, key, descriptor, Blank::new(1))
    }

    /// The same with a counter of its own.
    fn clone_of_ledger<L: Ledger>(
        alloc: Global,
        key: ImageKey,
        descriptor: &Descriptor,
        blank: Blank,
    ) -> Result<GuestMem, AllocError>
        requires name { blank.name ≡ L.name }
        requires parts { blank.parts ≡ L.parts }
        requires some { 0 < blank.parts }
        requires one_bit_a_page { HasMap descriptor.now }
        requires pages_of_image { descriptor.now.pages ≡ page_count (image_of key) }
        ensures { IfOk result (λ memory. memory ≡ cloned key descriptor.now.blank) }
    {
        let mut steps = Steps::<L>::new(blank);
        if let MapForm::Table(table) = descriptor.blank.form() {
            return GuestMem::sharing_counted(key, table, &mut steps);
        }
        GuestMem::clone_counted(alloc, key, descriptor, &mut steps)
    }

    /// The RAM of a clone that shares a table with others, which counts its steps. A step is a handle on a leaf of the table.
    pub fn sharing_counted<L: Ledger>(
        key: ImageKey,
        table: &CloneTable,
        steps: &mut Steps<L>,
    ) -> Result<GuestMem, AllocError>
        requires pages_of_image { length table.now ≡ page_count (image_of key) }
        requires least { MIN_PAGES ≤ length table.now }
        requires most { length table.now ≤ MAX_PAGES }
        ensures value { IfOk result (λ memory. memory ≡ cloned key table.now) }
        ensures cost { OnOk result (steps.new ≡ steps.old + (length table.now + 63) / 64) }
        ensures most { steps.new ≤ steps.old + (length table.now + 63) / 64 }
    {
        Ok(GuestMem {
            entries: table.entries().share_counted(steps)?,
            key: Some(key),
        })
    }

    /// The RAM of a clone whose table is made anew, which counts its steps. A step is a handle on a leaf of that table, or an
    /// entry that is written into one. So it costs leaves and not pages where few pages are blank
    /// (`choices_cost_leaves` of `shared_leaves`).
    pub fn clone_counted<L: Ledger>(
        alloc: Global,
        key: ImageKey,
        descriptor: &Descriptor,
        steps: &mut Steps<L>,
    ) -> Result<GuestMem, AllocError>
        requires one_bit_a_page { HasMap descriptor.now }
        requires pages_of_image { descriptor.now.pages ≡ page_count (image_of key) }
        ensures value { IfOk result (λ memory. memory ≡ cloned key descriptor.now.blank) }
        ensures cost { OnOk result (steps.new ≡ steps.old + choice_steps descriptor.now.blank) }
        ensures most { steps.new ≤ steps.old + choice_steps descriptor.now.blank }
    {
        Ok(GuestMem {
            entries: table_of(alloc, descriptor.pages, &descriptor.blank, steps)?,
            key: Some(key),
        })
    }

    /// An image of this RAM as it is now, with an input and a disk. The disk has as many sectors as that of the image of
    /// the key, which has its absent pages; where there is no key, every page of it is here. It copies no page and no byte of
    /// the input.
    pub fn freeze(
        &self,
        alloc: Global,
        depot: &Depot,
        disk: FrozenDisk,
        input: Input,
    ) -> Result<Frozen, AllocError>
        requires ram { IsRamOf depot.now self.now }
        requires disk { IsDiskBased disk self.now.key }
        ensures { IfOk result (λ image. image ≡ record {
          contents = self.now.reads;
          disk = disk_over disk (disk_below self.now.key);
          input = input;
        }) }
    {
        self.freeze_of_ledger::<Brand>(alloc, depot, disk, input, Blank::new(1))
    }

    /// The same with a counter of its own.
    fn freeze_of_ledger<L: Ledger>(
        &self,
        alloc: Global,
        depot: &Depot,
        disk: FrozenDisk,
        input: Input,
        blank: Blank,
    ) -> Result<Frozen, AllocError>
        requires name { blank.name ≡ L.name }
        requires parts { blank.parts ≡ L.parts }
        requires some { 0 < blank.parts }
        requires ram { IsRamOf depot.now self.now }
        requires disk { IsDiskBased disk self.now.key }
        ensures { IfOk result (λ image. image ≡ record {
          contents = self.now.reads;
          disk = disk_over disk (disk_below self.now.key);
          input = input;
        }) }
    {
        self.freeze_counted(alloc, depot, disk, input, &mut Steps::<L>::new(blank))
    }

    /// The same, which counts its steps. A step is a handle on a leaf of this RAM's page table. The handles
    /// on the tables and disks of the image of the key are not counted.
    pub fn freeze_counted<L: Ledger>(
        &self,
        alloc: Global,
        depot: &Depot,
        disk: FrozenDisk,
        input: Input,
        steps: &mut Steps<L>,
    ) -> Result<Frozen, AllocError>
        requires ram { IsRamOf depot.now self.now }
        requires disk { IsDiskBased disk self.now.key }
        ensures value { IfOk result (λ image. image ≡ record {
          contents = self.now.reads;
          disk = disk_over disk (disk_below self.now.key);
          input = input;
        }) }
        ensures cost { OnOk result (steps.new ≡ steps.old + (length self.now.here + 63) / 64) }
        ensures most { steps.new ≤ steps.old + (length self.now.here + 63) / 64 }
    {
        let entries = self.entries.share_counted(steps)?;
        match &self.key {
            Some(key) => Frozen::over(alloc, depot.frozen(key), entries, disk, input),
            None => Frozen::new(alloc, entries, disk, input),
        }
    }

    /// Takes a page of RAM that was sent, where it is absent and one of the image that this RAM started with. The bytes of the
    /// reply are those of the image's page, so the page is shared with the image where that holds it, and not copied.
    pub fn arrive(
        &mut self,
        alloc: Global,
        depot: &Depot,
        parcel: &Parcel,
    ) -> Result<Arrived, AllocError>
        requires ram { IsRamOf depot.now self.old }
        requires parcel { IsKeyOf depot.now parcel.now.key }
        requires of_ram { parcel.now.page < page_count (image_of parcel.now.key) }
        ensures ok { IfOk result (Arrives self.old parcel.now self.new) }
        ensures err { OnErr result (self.new ≡ self.old) }
    {
        let page = parcel.page();
        let Some(key) = &self.key else {
            return Ok(Arrived::Had(page));
        };
        if key.number() != parcel.key().number() {
            return Ok(Arrived::Had(page));
        }
        depot.agree(key, parcel.key());
        if self.is_here(page) {
            return Ok(Arrived::Had(page));
        }
        let held = Entry::Held(depot.frozen(key).shared_page(alloc, page)?);
        self.entries.set(page as usize, held)?;
        Ok(Arrived::Got(page))
    }
}
