ghost use Rattle.std.specs.Prelude.{◌≡◌, ℕ, ◌+◌, ◌-◌, ◌*◌, ◌%◌, ◌<◌, ◌≤◌, List, ◌++◌, length, All, IsTrue, IfOk, IfErr, Ok};
ghost use Rattle.std.specs.List.{AllPairs, list_any};
ghost use Rattle.std.specs.List.Sorted.{IsNonDecreasingBy};
ghost use Rattle.elf_load.specs.Elf.{IsRefused, is_cut, is_outside, is_entry, overlap, place_rules, first_broken, ram_of, pages_of, loaded, IsInFile, IsInRam, IsBelow};
ghost use Rattle.elf_load.specs.OneSegment.{elf_of, bytes_of_words, words_of, image_of_code};

use crate::error::ImageError;
use crate::header::Header;
use crate::image::{Loaded, MAX_PAGES, MIN_PAGES, RAM_BASE};
use crate::memory::table_of;
use crate::segment::{Segment, segments_by_address};
use page_frames::PAGE_SIZE;
use std::alloc::{AllocError, Global};

/// Loads an ELF executable for RISC-V of 32 bits into RAM of `ram_pages` pages. Each segment goes to its
/// physical address. A file that cannot be loaded is refused by the first rule of `ImageError` that it
/// breaks.
pub fn load_elf(alloc: Global, bytes: &[u8], ram_pages: u32) -> Result<Loaded, ImageError>
    requires least { MIN_PAGES ≤ ram_pages }
    requires most { ram_pages ≤ MAX_PAGES }
    ensures loads { IfOk result (λ image. loaded bytes.now ram_pages ≡ Ok image) }
    ensures refuses { IfErr result (IsRefused bytes.now ram_pages) }
{
    let header = Header::read(bytes)?;
    let segments = segments_by_address(alloc, bytes, &header)?;
    if let Some(rule) = broken_rule(bytes, &segments, header.entry, ram_pages) {
        return Err(ImageError::Refused(rule));
    }
    Ok(place(alloc, bytes, &segments, header.entry, ram_pages)?)
}

/// The image of a file with these segments, which lie one behind the other.
fn place(
    alloc: Global,
    bytes: &[u8],
    segments: &[Segment],
    entry: u32,
    pages: u32,
) -> Result<Loaded, AllocError>
    requires least { MIN_PAGES ≤ pages }
    requires most { pages ≤ MAX_PAGES }
    requires in_file { All (IsInFile bytes.now) segments.now }
    requires in_ram { All (IsInRam pages) segments.now }
    requires in_order { AllPairs IsBelow segments.now }
    requires entered { IsTrue (is_entry pages entry) }
    ensures { IfOk result (λ image. image ≡ record {
      ram = ram_of bytes.now segments.now pages;
      entry = entry;
      segments = pages_of segments.now pages;
    }) }
{
    Ok(Loaded {
        table: table_of(alloc, bytes, segments, pages)?,
        entry,
    })
}

/// The first of the rules 9 to 12 that is broken, by segments in the order of their addresses.
#[tactic(auto, unfolding(crate::specs::Elf::place_rules))]
fn broken_rule(bytes: &[u8], segments: &[Segment], entry: u32, pages: u32) -> Option<u32>
    requires most { pages ≤ MAX_PAGES }
    requires sorted { IsNonDecreasingBy (λ s. s.address) segments.now }
    requires not_empty { All (λ s. 0 < s.memory_size) segments.now }
    ensures { result ≡ first_broken (place_rules bytes.now pages segments.now entry) }
{
    if any_cut(bytes, segments) {
        Some(9)
    } else if any_outside(segments, pages) {
        Some(10)
    } else if overlap(segments) {
        Some(11)
    } else if !is_entry(entry, pages) {
        Some(12)
    } else {
        None
    }
}

/// Whether the bytes of any segment end behind the file.
fn any_cut(bytes: &[u8], segments: &[Segment]) -> bool
    ensures { result ≡ list_any (is_cut bytes.now) segments.now }
{
    segments
        .iter()
        .any(|segment| bytes.len() < segment.file_end())
}

/// Whether any segment lies partly out of RAM.
fn any_outside(segments: &[Segment], pages: u32) -> bool
    requires { pages ≤ MAX_PAGES }
    ensures { result ≡ list_any (is_outside pages) segments.now }
{
    segments.iter().any(|segment| segment.is_outside(pages))
}

/// Whether any two of these segments, which are in the order of their addresses, share a byte.
fn overlap(segments: &[Segment]) -> bool
    requires sorted { IsNonDecreasingBy (λ s. s.address) segments.now }
    requires not_empty { All (λ s. 0 < s.memory_size) segments.now }
    ensures { result ≡ overlap segments.now }
{
    !segments.is_sorted_by(|low, high| low.end() <= high.address as usize)
}

/// Whether an address is in RAM and a multiple of 4.
fn is_entry(address: u32, pages: u32) -> bool
    requires { pages ≤ MAX_PAGES }
    ensures { result ≡ is_entry pages address }
{
    let end = RAM_BASE as usize + PAGE_SIZE * pages as usize;
    address % 4 == 0 && RAM_BASE <= address && (address as usize) < end
}

/// What `elf_of` writes of code that fits in RAM from an address on is loaded, with the code there and
/// zeros elsewhere.
pub fn one_segment()
    ensures loads { (base : ℕ) (code : List ℕ) (pages : ℕ) → pages ≤ MAX_PAGES
        → base % 4 ≡ 0 → RAM_BASE ≤ base → base < RAM_BASE + PAGE_SIZE * pages
        → base + length code ≤ RAM_BASE + PAGE_SIZE * pages
        → loaded (elf_of base code) pages ≡ Ok (image_of_code base code pages) }

    // Whole words are the bytes of some words, and the bytes of words are whole words.
    ensures words { (code : List ℕ) → All (λ byte. byte < 256) code → length code % 4 ≡ 0
        → bytes_of_words (words_of code) ≡ code }
    ensures whole_words { (words : List ℕ) → length (bytes_of_words words) ≡ 4 * length words }
{}
