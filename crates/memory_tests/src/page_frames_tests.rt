//! Pages: that calls succeed, that pages are shared until they are written, and that they move between
//! threads.

use crate::equal::are_equal;
use page_frames::{Entry, PAGE_SIZE, Page, PageTable};
use std::alloc::{AllocError, Global};
use std::process::Abort;
use std::thread;
use std::thread::Threads;

fn page_of(alloc: Global, byte: u8) -> Result<Page, AllocError> {
    Page::from_slice(alloc, &[byte; PAGE_SIZE])
}

/// Writes at both ends of a page.
fn write_ends(page: &mut Page) -> Result<(), AllocError> {
    page.write(0, &[0x11])?;
    page.write(1, &[0x22, 0x33])?;
    page.write(4092, &[0x44, 0x55, 0x66, 0x77])
}

#[test]
fn reads_what_is_written(rt: HostRuntime) -> Result<(), AllocError> {
    let mut page = Page::zeroed(rt.alloc())?;
    write_ends(&mut page)?;
    is_read(&rt, &page);
    Ok(())
}

fn is_read(rt: &impl Abort, page: &Page) {
    are_equal(
        rt,
        &[page.word(0), page.word(4092)],
        &[0x0033_2211, 0x7766_5544],
    );
    are_equal(rt, &[page.half(1), page.half(4094)], &[0x3322, 0x7766]);
    let bytes = [page.byte(0), page.byte(4095), page.byte(4091)];
    are_equal(rt, &bytes, &[0x11, 0x77, 0]);
}

/// The first two bytes of a page, and the last.
fn ends_of(page: &Page) -> [u8; 3] {
    [page.byte(0), page.byte(1), page.byte(4095)]
}

#[test]
fn a_page_shared_three_ways_is_written_in_each(rt: HostRuntime) -> Result<(), AllocError> {
    let mut first = page_of(rt.alloc(), 0xaa)?;
    let mut second = first.share()?;
    let mut third = second.share()?;
    are_written_apart(&rt, &mut first, &mut second, &mut third)
}

/// Three handles on one page are each written.
fn are_written_apart(
    rt: &impl Abort,
    first: &mut Page,
    second: &mut Page,
    third: &mut Page,
) -> Result<(), AllocError> {
    first.write(0, &[1])?;
    second.write(4095, &[2])?;
    third.write(0, &[3, 4])?;
    let ends = [ends_of(first), ends_of(second), ends_of(third)];
    are_equal(rt, &ends, &[[1, 0xaa, 0xaa], [0xaa, 0xaa, 2], [3, 4, 0xaa]]);
    Ok(())
}

/// Writes two bytes in each page of a table's own.
fn write_each(table: &mut PageTable) -> Result<(), AllocError> {
    let alloc = table.allocator();
    for page in 0..table.len() {
        if page < table.len() {
            let entry = table.entry_mut(page)?;
            if entry.is_own() {
                entry.write(alloc, 4, &[0x11, 0x22])?;
            }
        }
    }
    Ok(())
}

/// The second and third word of a page of a table's own.
fn words_of(table: &PageTable, page: usize) -> Option<[u32; 2]> {
    if page >= table.len() {
        return None;
    }
    let entry = table.get(page);
    if !entry.is_own() {
        return None;
    }
    Some([entry.word(4), entry.word(8)])
}

/// The same of the first three pages.
fn three_pages(table: &PageTable) -> [Option<[u32; 2]>; 3] {
    [words_of(table, 0), words_of(table, 1), words_of(table, 2)]
}

#[test]
fn a_shared_table_is_written_apart(rt: HostRuntime) -> Result<(), AllocError> {
    let table = table_of(rt.alloc())?;
    let mut shared = table.share()?;
    write_each(&mut shared)?;
    are_apart(&rt, &table, &shared);
    Ok(())
}

/// A table of a held page, a blank one and an absent one.
fn table_of(alloc: Global) -> Result<PageTable, AllocError> {
    let page = page_of(alloc, 0xaa)?;
    let entries = vec![in alloc; Entry::Held(page), Entry::Blank, Entry::Absent]?;
    PageTable::from_vec(alloc, entries)
}

fn are_apart(rt: &impl Abort, table: &PageTable, shared: &PageTable) {
    let before = [Some([0xaaaa_aaaa, 0xaaaa_aaaa]), Some([0, 0]), None];
    are_equal(rt, &three_pages(table), &before);
    let after = [Some([0xaaaa_2211, 0xaaaa_aaaa]), Some([0x2211, 0]), None];
    are_equal(rt, &three_pages(shared), &after);
    let is_blank = table.len() > 1 && table.get(1).is_blank();
    assert!(rt; is_blank, "a blank page is held");
}

/// One thread shares a page, and another reads it.
fn are_shared_and_read<R: Abort + Threads>(rt: &R, page: &Page) -> Result<(), AllocError> {
    let entry = Entry::Held(page.share()?);
    let (shared, word) = thread::join(rt, || page.share(), move || entry.word(0));
    are_equal(rt, &(shared?.byte(0), word), &(0xaa, 0xaaaa_aaaa));
    Ok(())
}

#[test]
fn moves_between_threads(rt: HostRuntime) -> Result<(), AllocError> {
    let page = page_of(rt.alloc(), 0xaa)?;
    are_shared_and_read(&rt, &page)
}
