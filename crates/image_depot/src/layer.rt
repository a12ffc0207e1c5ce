ghost use Rattle.std.specs.Prelude.{◌≡◌, ◌<◌, List, [], ◌∷◌, length, IfOk};
ghost use Rattle.page_frames.specs.declared.entry.Entry.{Entry};
ghost use Rattle.page_frames.specs.Tables.{entry_at, is_own};

use crate::table::Table;
use cow_disk::FrozenDisk;
use std::alloc::AllocError;

/// Pages that lie over others, of RAM or of a disk: each page is one of the layer's own, or as it is below.
pub trait Layer {
    /// The entries of its pages.
    ghost entries: { Self → List Entry };

    /// Those of layers in a row.
    ghost tables: { List Self → List (List Entry) };

    /// How many pages it has entries for.
    fn pages(&self) -> usize
        ensures { result ≡ length (entries self.now) };

    /// Whether it has a page of its own.
    fn has(&self, page: usize) -> bool
        requires { page < length (entries self.now) }
        ensures { result ≡ is_own (entry_at (entries self.now) page) };

    /// The same layer once more. It costs one handle.
    fn again(&self) -> Result<Self, AllocError>
        ensures { IfOk result (λ layer. layer ≡ self.now) };

    ghost of_none: { tables [] ≡ [] };

    ghost of_more: { (layer : Self) (layers : List Self) → tables (layer ∷ layers) ≡ entries layer ∷ tables layers };
}

impl Layer for Table {
    ghost use Rattle.std.specs.Prelude.{refl};

    ghost entries = { λ table. table };

    ghost tables = { λ tables. tables };

    fn pages(&self) -> usize {
        self.entries().len()
    }

    fn has(&self, page: usize) -> bool {
        self.entries().get(page).is_own()
    }

    fn again(&self) -> Result<Table, AllocError> {
        self.share()
    }

    ghost of_none = { refl };

    ghost of_more = { λ layer layers. refl };
}

impl Layer for FrozenDisk {
    ghost use Rattle.std.specs.Prelude.{refl};
    ghost use Rattle.image_depot.specs.Image.{tables_of};

    ghost entries = { λ disk. disk.pages };

    ghost tables = { λ disks. tables_of disks };

    fn pages(&self) -> usize {
        FrozenDisk::pages(self) as usize
    }

    fn has(&self, page: usize) -> bool {
        // The call tells how many pages there are.
        let _ = FrozenDisk::pages(self);
        self.is_here(page as u32)
    }

    fn again(&self) -> Result<FrozenDisk, AllocError> {
        self.share()
    }

    ghost of_none = { refl };

    ghost of_more = { λ layer layers. refl };
}
