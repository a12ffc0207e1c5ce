//! Executable images: ELF files with one segment, of instruction words.

ghost use Rattle.std.specs.Prelude.{◌≡◌, ◌+◌, ◌*◌, ◌%◌, ◌≤◌, ◌++◌, length, IfOk, OnOk};
ghost use Rattle.std.specs.List.{flat_map};
ghost use Rattle.elf_load.specs.OneSegment.{half, bytes_of_words, elf_header, program_header, elf_of};

use flat_memory::push_words;
use std::alloc::{AllocError, Global};

/// The most words of an image: those of 1,024 pages, or 4 MiB.
pub const MAX_WORDS: usize = 0x10_0000;

/// The bytes of an ELF header.
const ELF_HEADER_SIZE: u16 = 52;

/// The bytes of a program header.
const PROGRAM_HEADER_SIZE: u16 = 32;

/// The bytes before the words.
const HEADERS_SIZE: u32 = 84;

/// The magic number, 32-bit objects, little endian, version 1, and padding.
const IDENTIFICATION: [u8; 16] = [0x7f, b'E', b'L', b'F', 1, 1, 1, 0, 0, 0, 0, 0, 0, 0, 0, 0];

/// An executable, in `e_type`.
const ET_EXEC: u16 = 2;

/// RISC-V, in `e_machine`.
const EM_RISCV: u16 = 243;

/// The version of the format, in `e_version`.
const EV_CURRENT: u32 = 1;

/// A segment that is loaded, in `p_type`.
const PT_LOAD: u32 = 1;

/// Read, write and execute, in `p_flags`.
const READ_WRITE_EXECUTE: u32 = 7;

/// The image of a program: an ELF executable with one segment, in which these words go to the address
/// `base`, and which starts there.
pub fn elf_of(alloc: Global, base: u32, words: &[u32]) -> Result<Vec<u8>, AllocError>
    requires aligned { base % 4 ≡ 0 }
    requires most { length words.now ≤ MAX_WORDS }
    ensures { IfOk result (λ file. file.items ≡ elf_of base (bytes_of_words words.now)) }
{
    let size = 4 * words.len() as u32;
    let mut file = Vec::with_capacity(alloc, (HEADERS_SIZE + size) as usize)?;
    push_elf_header(&mut file, base)?;
    push_program_header(&mut file, base, size)?;
    push_words(&mut file, words)?;
    Ok(file)
}

/// Adds the header of an executable that starts at `entry`, with one program header and no sections.
fn push_elf_header(file: &mut Vec<u8>, entry: u32) -> Result<(), AllocError>
    ensures { OnOk result (file.new.items ≡ file.old.items ++ elf_header entry) }
{
    file.extend_from_slice(&IDENTIFICATION)?;
    push_halves(file, &[ET_EXEC, EM_RISCV])?;
    // e_version, e_entry, e_phoff, e_shoff and e_flags
    push_words(file, &[EV_CURRENT, entry, u32::from(ELF_HEADER_SIZE), 0, 0])?;
    // e_ehsize, e_phentsize, e_phnum, e_shentsize, e_shnum and e_shstrndx
    push_halves(file, &[ELF_HEADER_SIZE, PROGRAM_HEADER_SIZE, 1, 0, 0, 0])
}

/// Adds the header of a segment whose `size` bytes stand behind the headers and go to `base`.
fn push_program_header(file: &mut Vec<u8>, base: u32, size: u32) -> Result<(), AllocError>
    ensures { OnOk result (file.new.items ≡ file.old.items ++ program_header base size) }
{
    // p_type, p_offset, p_vaddr, p_paddr, p_filesz, p_memsz, p_flags and p_align
    push_words(
        file,
        &[
            PT_LOAD,
            HEADERS_SIZE,
            base,
            base,
            size,
            size,
            READ_WRITE_EXECUTE,
            4,
        ],
    )
}

/// Adds the bytes of these numbers, little endian.
fn push_halves(file: &mut Vec<u8>, halves: &[u16]) -> Result<(), AllocError>
    ensures { OnOk result (file.new.items ≡ file.old.items ++ flat_map half halves.now) }
{
    for half in halves {
        file.extend_from_slice(&half.to_le_bytes())?;
    }
    Ok(())
}
