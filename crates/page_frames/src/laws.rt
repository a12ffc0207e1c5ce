//! Laws of the definitions, each the contract of a function that does nothing.

ghost use Rattle.std.specs.Prelude.{◌≡◌, ℕ, ◌+◌, ◌*◌, ◌<◌, List, length, slice_index, IsTrue, IsFalse};
ghost use Rattle.page_frames.specs.declared.entry.Entry.{Entry};
ghost use Rattle.page_frames.specs.Tables.{entry_at, entry_bytes, is_own, laid_over};

use crate::page::PAGE_SIZE;

/// The memory of a table that lies over another has the bytes of each page at the page's place: those
/// of the table's own page where it has one, and else those of the memory below.
pub fn memory_is_its_pages()
    ensures size { (entries : List Entry) (below : List ℕ) → length (laid_over entries below) ≡ PAGE_SIZE * length entries }
    ensures own { (entries : List Entry) (below : List ℕ) (page at : ℕ) → page < length entries → at < PAGE_SIZE → IsTrue (is_own (entry_at entries page))
        → slice_index (laid_over entries below) (PAGE_SIZE * page + at) ≡ slice_index (entry_bytes (entry_at entries page)) at }
    ensures others { (entries : List Entry) (below : List ℕ) (page at : ℕ) → page < length entries → at < PAGE_SIZE → IsFalse (is_own (entry_at entries page))
        → slice_index (laid_over entries below) (PAGE_SIZE * page + at) ≡ slice_index below (PAGE_SIZE * page + at) }
{}
