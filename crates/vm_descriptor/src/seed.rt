//! What the clones of a ticket start with, as bytes.

ghost use Rattle.std.specs.Prelude.{◌≡◌, ◌<◌, ◌^◌, false, length, IfOk};
ghost use Rattle.std.specs.Option.{ForSome};
ghost use Rattle.vm_descriptor.specs.Descriptor.{IsInRange, numbered};
ghost use Rattle.vm_descriptor.specs.Described.{described};
ghost use Rattle.vm_descriptor.specs.Maps.{flags_of_runs};

use crate::clone_table::CloneTable;
use crate::descriptor::Descriptor;
use crate::page_map::{MapForm, PageMap};
use crate::read::{map_behind, with_fields};
use crate::runs::runs_in;
use crate::version::VERSION_3;
use std::alloc::{AllocError, Global};
use std::marker::Model;

/// The most runs of equal flags in a table that clones share.
const MAX_RUNS: usize = 16;

/// What the clones of a ticket start with, as the bytes of the descriptor of one of them: the others differ in
/// their number alone. Contracts see that descriptor.
#[derive(Drop)]
pub struct Seed {
    bytes: Vec<u8>,
    /// The table with which each clone starts, where it is made once for all.
    table: Option<CloneTable>,
}

impl Model for Seed {
    ghost use Rattle.vm_descriptor.specs.declared.descriptor.Descriptor.{Descriptor};
    ghost use Rattle.vm_descriptor.specs.Versions.{version_3};
    ghost use Rattle.vm_descriptor.specs.Described.{read_as, IsKeptWith};

    ghost Value = { Descriptor };

    ghost view = { λ s. read_as version_3 s.bytes.items };

    ghost invariant = { λ s. IsKeptWith s.bytes.items s.table };
}

impl Seed {
    /// The seed of so many clones, of which one has this descriptor, which is in range. It takes memory once for the bytes, and
    /// where there is more than one clone, for the table with which each of them starts.
    #[tactic(auto, using(crate::proofs::Kept::kept_with, crate::proofs::Kept::read_kept))]
    pub fn new(alloc: Global, descriptor: &Descriptor, clones: u32) -> Result<Seed, AllocError>
        requires { IsInRange descriptor.now }
        ensures { IfOk result (λ seed. seed ≡ descriptor.now) }
    {
        descriptor.fits();
        Ok(Seed {
            bytes: descriptor.encode(alloc)?,
            table: table_for(alloc, &descriptor.blank, clones)?,
        })
    }

    /// The bytes of that descriptor. It takes no memory.
    pub fn bytes(&self) -> &[u8]
        ensures { result.now ≡ described self.now }
    {
        &self.bytes
    }

    /// The descriptor of a clone, by its number, as it comes back from its bytes. Where the clones share a table, its map is that.
    pub fn through_bytes(&self, alloc: Global, clone_id: u32) -> Result<Descriptor, AllocError>
        requires { IsInRange (numbered clone_id self.now) }
        ensures { IfOk result (λ descriptor. descriptor ≡ numbered clone_id self.now) }
    {
        let blank = self.map(alloc)?;
        let mut descriptor = with_fields(&VERSION_3, &self.bytes, blank);
        descriptor.clone_id = clone_id;
        Ok(descriptor)
    }

    /// The map of the blank pages.
    fn map(&self, alloc: Global) -> Result<PageMap, AllocError>
        ensures { IfOk result (λ map. map ≡ self.now.blank) }
    {
        match &self.table {
            Some(table) => Ok(PageMap::from_table(table.share()?)),
            None => map_behind(alloc, &VERSION_3, &self.bytes),
        }
    }
}

/// The table with which each of so many clones starts, where it is to be made once for all: there is more than one, and few
/// runs of flags. Many could make each leaf one of both kinds, and tickets whose clones do not wake would hold them all.
#[tactic(auto, using(crate::proofs::RunLengths::flags_in_again))]
fn table_for(alloc: Global, map: &PageMap, clones: u32) -> Result<Option<CloneTable>, AllocError>
    requires { length map.now < 2 ^ 16 }
    ensures { IfOk result (λ table. ForSome table (λ t. t ≡ map.now)) }
{
    if clones < 2 {
        return Ok(None);
    }
    match map.form() {
        MapForm::Flags(flags) => {
            let lengths = runs_in(alloc, flags)?;
            table_in(alloc, &lengths)
        }
        MapForm::Runs(lengths) => table_in(alloc, lengths),
        MapForm::Table(table) => Ok(Some(table.share()?)),
    }
}

/// The table of clones whose blank pages are the set flags of these runs, where there are few of them.
fn table_in(alloc: Global, lengths: &[u16]) -> Result<Option<CloneTable>, AllocError>
    requires { length (flags_of_runs false lengths.now) < 2 ^ 16 }
    ensures { IfOk result (λ table. ForSome table (λ t. t ≡ flags_of_runs false lengths.now)) }
{
    if lengths.len() > MAX_RUNS {
        return Ok(None);
    }
    Ok(Some(CloneTable::of_runs(alloc, lengths)?))
}
