//! Writes to the pages of a table.

ghost use Rattle.std.specs.Prelude.{◌≡◌, ◌+◌, ◌<◌, ◌≤◌, length, slice_set, IsTrue, MatchBool, OnOk, OnErr};
ghost use Rattle.flat_memory.specs.Flat.{put_bytes};
ghost use Rattle.page_frames.specs.Tables.{IsWrittenIn, entry_at, entry_bytes, is_own};

use crate::entry::{Entry, PageTable};
use crate::page::PAGE_SIZE;
use std::alloc::AllocError;

/// Writes bytes over those from a place of a table's own page on. Its leaf is copied first where another
/// table shares it, and the page where another entry does.
#[inline(always)]
pub fn write_page(
    table: &mut PageTable,
    page: usize,
    at: u32,
    bytes: &[u8],
) -> Result<(), AllocError>
    requires there { page < length table.old }
    requires own { IsTrue (is_own (entry_at table.old page)) }
    requires within { at + length bytes.now ≤ PAGE_SIZE }
    ensures ok { OnOk result (table.new ≡ slice_set table.old page (Entry.Held (put_bytes (entry_bytes (entry_at table.old page)) at bytes.now))) }
    ensures whole { OnOk result (length (entry_bytes (entry_at table.old page)) ≡ PAGE_SIZE) }
    ensures err { OnErr result (table.new ≡ table.old) }
{
    let alloc = table.allocator();
    let entry = table.entry_mut(page)?;
    entry.write(alloc, at, bytes)?;
    Ok(())
}

/// Writes bytes over those from a place of a page on that this table holds, where no other table shares its leaf and no other
/// entry the page, and answers whether it is such a one. Else nothing changes.
#[inline(always)]
pub fn write_own_page(table: &mut PageTable, page: usize, at: u32, bytes: &[u8]) -> bool
    requires there { page < length table.old }
    requires within { at + length bytes.now ≤ PAGE_SIZE }
    ensures { MatchBool result (IsWrittenIn table.old page at bytes.now table.new) (table.new ≡ table.old) }
{
    match table.own_entry_mut(page) {
        Some(entry) => entry.write_own(at, bytes),
        None => false,
    }
}
