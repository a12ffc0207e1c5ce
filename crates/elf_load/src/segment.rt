ghost use Rattle.std.specs.Prelude.{◌≡◌, ◌+◌, ◌*◌, ◌≤◌, if◌then◌else◌, length, IfOk, IfErr, Some, None, false};
ghost use Rattle.std.specs.List.{list_any};
ghost use Rattle.std.specs.List.Sorted.{IsPermutation, IsNonDecreasingBy};
ghost use Rattle.elf_load.specs.Elf.{segment_at, end_of, is_outside, loads_of, segments_of, is_overfull, IsHeaderOf, NamesRule};

use crate::error::ImageError;
use crate::header::Header;
use crate::image::RAM_BASE;
use flat_memory::read_word;
use page_frames::PAGE_SIZE;
use std::alloc::{AllocError, Global};

/// The bytes of a program header.
pub const PROGRAM_HEADER_SIZE: usize = 32;

/// A segment that is loaded, in `p_type`.
pub const PT_LOAD: u32 = 1;

/// A segment of a file: bytes that go to RAM, and zeros behind them.
#[derive(Clone, Copy)]
pub(crate) struct Segment {
    /// The place of its bytes in the file.
    pub(crate) offset: u32,
    /// The physical address of its first byte.
    pub(crate) address: u32,
    /// How many bytes it has in the file.
    pub(crate) file_size: u32,
    /// How many bytes it has in RAM.
    pub(crate) memory_size: u32,
}

impl Segment {
    /// The segment of the program header that begins at a place of the file.
    #[tactic(auto, unfolding(crate::specs::Elf::segment_at))]
    fn read(bytes: &[u8], at: usize) -> Segment
        requires { at + PROGRAM_HEADER_SIZE ≤ length bytes.now }
        ensures { result ≡ segment_at bytes.now at }
    {
        Segment {
            offset: read_word(bytes, at + 4),
            address: read_word(bytes, at + 12),
            file_size: read_word(bytes, at + 16),
            memory_size: read_word(bytes, at + 20),
        }
    }

    /// Where its bytes end in the file.
    #[inline]
    pub(crate) fn file_end(&self) -> usize
        ensures { result ≡ self.now.offset + self.now.file_size }
    {
        self.offset as usize + self.file_size as usize
    }

    /// Where it ends in memory.
    #[inline]
    pub(crate) fn end(&self) -> usize
        ensures { result ≡ end_of self.now }
    {
        self.address as usize + self.memory_size as usize
    }

    /// Whether it lies partly out of RAM of `pages` pages.
    #[inline]
    pub(crate) fn is_outside(&self, pages: u32) -> bool
        ensures { result ≡ is_outside pages self.now }
    {
        self.address < RAM_BASE || RAM_BASE as usize + PAGE_SIZE * (pages as usize) < self.end()
    }
}

/// The segments that a file places in RAM, in the order of their addresses. It is refused where one has
/// more bytes in the file than in memory.
pub(crate) fn segments_by_address(
    alloc: Global,
    bytes: &[u8],
    header: &Header,
) -> Result<Vec<Segment>, ImageError>
    requires { IsHeaderOf bytes.now header.now }
    ensures placed { IfOk result (λ segments. IsPermutation (segments_of bytes.now) segments.items) }
    ensures rising { IfOk result (λ segments. IsNonDecreasingBy (λ s. s.address) segments.items) }
    ensures fit { IfOk result (λ _. list_any is_overfull (loads_of bytes.now) ≡ false) }
    ensures overfull { IfErr result (NamesRule (if list_any is_overfull (loads_of bytes.now) then Some 8 else None)) }
{
    let mut segments = read_segments(alloc, bytes, header)?;
    segments.sort_unstable_by_key(|segment| segment.address);
    Ok(segments)
}

/// The same in the order of the program headers.
fn read_segments(alloc: Global, bytes: &[u8], header: &Header) -> Result<Vec<Segment>, ImageError>
    requires { IsHeaderOf bytes.now header.now }
    ensures placed { IfOk result (λ segments. segments.items ≡ segments_of bytes.now) }
    ensures fit { IfOk result (λ _. list_any is_overfull (loads_of bytes.now) ≡ false) }
    ensures overfull { IfErr result (NamesRule (if list_any is_overfull (loads_of bytes.now) then Some 8 else None)) }
{
    let mut segments = Vec::new(alloc);
    for n in 0..header.count as usize {
        let at = header.table as usize + PROGRAM_HEADER_SIZE * n;
        if read_word(bytes, at) != PT_LOAD {
            continue;
        }
        let segment = Segment::read(bytes, at);
        if segment.file_size > segment.memory_size {
            return Err(ImageError::Refused(8));
        }
        if segment.memory_size > 0 {
            segments.push(segment).map_err(AllocError::from)?;
        }
    }
    Ok(segments)
}
