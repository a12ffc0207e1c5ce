ghost use Rattle.std.specs.Prelude.{◌≡◌, IfOk};
ghost use Rattle.std.specs.Arc.{arc_value};

use page_frames::PageTable;
use std::alloc::{AllocError, Global};
use std::marker::Model;
use std::sync::Arc;

/// A page table that stays as it is, behind one handle. Contracts see it as its entries.
#[derive(Drop)]
pub struct Table {
    entries: Arc<PageTable>,
}

impl Model for Table {
    ghost use Rattle.std.specs.Prelude.{List};
    ghost use Rattle.std.specs.Arc.{arc_value};
    ghost use Rattle.page_frames.specs.declared.entry.Entry.{Entry};

    ghost Value = { List Entry };

    ghost view = { λ t. arc_value t.entries };
}

impl Table {
    /// The table with these entries, of page 0 first.
    pub fn new(alloc: Global, entries: PageTable) -> Result<Table, AllocError>
        ensures { IfOk result (λ table. table ≡ entries) }
    {
        Ok(Table {
            entries: Arc::new(alloc, entries)?,
        })
    }

    /// The entries, of page 0 first.
    #[inline]
    pub fn entries(&self) -> &PageTable
        ensures { result.now ≡ self.now }
    {
        &self.entries
    }

    /// The same table once more. It costs one handle.
    pub(crate) fn share(&self) -> Result<Table, AllocError>
        ensures { IfOk result (λ table. table ≡ self.now) }
    {
        Ok(Table {
            entries: Arc::try_clone(&self.entries)?,
        })
    }
}
