//! RAM with the segments of a file in it, as a page table. Pages are held where a byte of a segment falls in them.

ghost use Rattle.std.specs.Prelude.{◌≡◌, ◌+◌, ◌-◌, ◌*◌, ◌<◌, ◌≤◌, ◌||◌, [], ℕ, false, length, slice_index_or, slice_set, take, drop, IfOk, OnOk, All};
ghost use Rattle.std.specs.List.{AllPairs};
ghost use Rattle.flat_memory.specs.Flat.{put_bytes};
ghost use Rattle.page_frames.specs.Tables.{entry_at, entry_bytes, laid_over};
ghost use Rattle.elf_load.specs.Image.{IsWhole, held_pages};
ghost use Rattle.elf_load.specs.Elf.{IsInFile, IsInRam, IsBelow, pages_of, part_in, ram_of, touches};

use crate::image::{MAX_PAGES, RAM_BASE};
use crate::segment::Segment;
use page_frames::{Entry, PAGE_SIZE, PageTable, write_page};
use shared_leaves::SharedList;
use std::alloc::{AllocError, Global};

/// The page table of RAM with these segments of a file in it, which lie one behind the other.
pub(crate) fn table_of(
    alloc: Global,
    bytes: &[u8],
    segments: &[Segment],
    pages: u32,
) -> Result<PageTable, AllocError>
    requires most { pages ≤ MAX_PAGES }
    requires in_file { All (IsInFile bytes.now) segments.now }
    requires in_ram { All (IsInRam pages) segments.now }
    requires in_order { AllPairs IsBelow segments.now }
    ensures ram { IfOk result (λ table. laid_over table [] ≡ ram_of bytes.now segments.now pages) }
    ensures flags { IfOk result (λ table. held_pages table ≡ pages_of segments.now pages) }
    ensures whole { IfOk result IsWhole }
{
    let mut table = SharedList::repeat(alloc, &Entry::Blank, pages as usize)?;
    for segment in segments {
        put_segment(&mut table, bytes, segment)?;
    }
    Ok(table)
}

/// Puts a segment into RAM. Its bytes behind those of the file are left as they are.
fn put_segment(table: &mut PageTable, bytes: &[u8], segment: &Segment) -> Result<(), AllocError>
    requires in_file { IsInFile bytes.now segment.now }
    requires in_ram { IsInRam (length table.old) segment.now }
    requires whole { IsWhole table.old }
    requires most { length table.old ≤ MAX_PAGES }
    ensures ram { OnOk result (laid_over table.new [] ≡ put_bytes (laid_over table.old []) (segment.now.address - RAM_BASE) (take segment.now.file_size (drop segment.now.offset bytes.now))) }
    ensures flags { OnOk result ((page : ℕ) → page < length table.old
        → slice_index_or (held_pages table.new) page false ≡ (slice_index_or (held_pages table.old) page false || touches page segment.now)) }
    ensures whole { OnOk result (IsWhole table.new) }
    ensures size { OnOk result (length table.new ≡ length table.old) }
{
    let start = (segment.address - RAM_BASE) as usize;
    let last = segment.end() - 1 - RAM_BASE as usize;
    let content = &bytes[segment.offset as usize..segment.file_end()];
    for page in start / PAGE_SIZE..last / PAGE_SIZE + 1 {
        put_part(table, page, start, content)?;
    }
    Ok(())
}

/// Puts into a page those of some bytes that fall in it, where they begin at a place of RAM.
fn put_part(
    table: &mut PageTable,
    page: usize,
    start: usize,
    content: &[u8],
) -> Result<(), AllocError>
    requires there { page < length table.old }
    requires whole { IsWhole table.old }
    requires most { length table.old ≤ MAX_PAGES }
    requires begun { start < PAGE_SIZE * page + PAGE_SIZE }
    ensures ok { OnOk result (table.new ≡ slice_set table.old page (Entry.Held (put_bytes (entry_bytes (entry_at table.old page)) (start - PAGE_SIZE * page) (part_in page start content.now)))) }
    ensures whole { OnOk result (length (entry_bytes (entry_at table.old page)) ≡ PAGE_SIZE) }
{
    let begin = PAGE_SIZE * page;
    let first = begin.saturating_sub(start).min(content.len());
    let end = (begin + PAGE_SIZE - start).min(content.len());
    let at = start.saturating_sub(begin);
    write_page(table, page, at as u32, &content[first..end])
}
