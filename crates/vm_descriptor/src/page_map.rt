ghost use Rattle.std.specs.Prelude.{◌≡◌, ◌↔◌, length, false, IsTrue, IfOk};
ghost use Rattle.shared_leaves.specs.Choices.{flags_of_runs};
ghost use Rattle.page_frames.specs.Tables.{blank_pages};
ghost use Rattle.vm_descriptor.specs.PageMaps.{held};

use crate::clone_table::{CloneTable, blank_runs};
use crate::runs::{are_as_many, flags_in_runs};
use page_frames::PageTable;
use std::alloc::{AllocError, Global};
use std::marker::Model;

/// One flag for each page of RAM, in order.
#[derive(Drop)]
pub struct PageMap {
    form: MapForm,
}

/// How a map holds its flags.
#[derive(Drop)]
pub enum MapForm {
    /// One by one.
    Flags(Vec<bool>),
    /// By the lengths of the runs of equal flags, the first of flags that are not set.
    Runs(Vec<u16>),
    /// By the page table of a clone that has this map.
    Table(CloneTable),
}

impl Model for PageMap {
    ghost use Rattle.std.specs.Prelude.{Bool, List};
    ghost use Rattle.vm_descriptor.specs.PageMaps.{held};

    ghost Value = { List Bool };

    ghost view = { λ m. held m.form };
}

impl Clone for PageMap {
    ghost use Rattle.std.specs.Prelude.{◌≡◌};

    ghost is_clone = { λ m n. n ≡ m };

    fn clone(&self) -> Result<PageMap, AllocError> {
        match &self.form {
            MapForm::Flags(flags) => Ok(PageMap::from_vec(flags.clone()?)),
            MapForm::Runs(runs) => Ok(PageMap::from_runs(runs.clone()?)),
            MapForm::Table(table) => Ok(PageMap::from_table(table.share()?)),
        }
    }
}

impl PageMap {
    /// The map with these flags. It takes no memory.
    pub fn from_vec(flags: Vec<bool>) -> PageMap
        ensures { result ≡ flags.items }
    {
        PageMap {
            form: MapForm::Flags(flags),
        }
    }

    /// The map with the flags of these runs. It takes no memory.
    pub(crate) fn from_runs(runs: Vec<u16>) -> PageMap
        ensures { result ≡ flags_of_runs false runs.items }
    {
        PageMap {
            form: MapForm::Runs(runs),
        }
    }

    /// The map of a table that clones share. It takes no memory.
    pub(crate) fn from_table(table: CloneTable) -> PageMap
        ensures { result ≡ table }
    {
        PageMap {
            form: MapForm::Table(table),
        }
    }

    /// The map of a page table: for each page, whether it is blank there.
    pub fn of_table(alloc: Global, table: &PageTable) -> Result<PageMap, AllocError>
        ensures { IfOk result (λ map. map ≡ blank_pages table.now) }
    {
        Ok(PageMap::from_runs(blank_runs(alloc, table)?))
    }

    /// The flags one by one.
    pub fn flags(&self, alloc: Global) -> Result<Vec<bool>, AllocError>
        ensures { IfOk result (λ flags. flags.items ≡ self.now) }
    {
        match &self.form {
            MapForm::Flags(flags) => Vec::from_slice(alloc, flags),
            MapForm::Runs(runs) => flags_in_runs(alloc, runs),
            MapForm::Table(table) => {
                let lengths = table.runs(alloc)?;
                flags_in_runs(alloc, &lengths)
            }
        }
    }

    /// Whether there are so many flags. It takes no memory.
    pub(crate) fn has(&self, pages: u32) -> bool
        ensures { IsTrue result ↔ length self.now ≡ pages }
    {
        match &self.form {
            MapForm::Flags(flags) => flags.len() == pages as usize,
            MapForm::Runs(runs) => are_as_many(runs, pages),
            MapForm::Table(table) => table.len() == pages as usize,
        }
    }

    /// How the flags are held. It takes no memory.
    pub fn form(&self) -> &MapForm
        ensures { held result.now ≡ self.now }
    {
        &self.form
    }
}
