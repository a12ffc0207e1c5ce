ghost use Rattle.std.specs.Prelude.{◌≡◌, IfOk, IfErr, None};
ghost use Rattle.elf_load.specs.Elf.{IsHeaderOf, NamesRule, header_rules, first_broken};

use crate::error::ImageError;
use crate::segment::PROGRAM_HEADER_SIZE;
use flat_memory::{read_half, read_word};

/// The bytes of an ELF header.
pub const HEADER_SIZE: usize = 52;

/// The first bytes of an ELF file.
pub const MAGIC: [u8; 4] = [0x7f, b'E', b'L', b'F'];

/// 32-bit objects, in `e_ident`.
pub const ELFCLASS32: u8 = 1;

/// Little-endian numbers, in `e_ident`.
pub const ELFDATA2LSB: u8 = 1;

/// The version of the format.
pub const EV_CURRENT: u8 = 1;

/// An executable, in `e_type`.
pub const ET_EXEC: u16 = 2;

/// RISC-V, in `e_machine`.
pub const EM_RISCV: u16 = 243;

/// In `e_phnum` the mark of a count that stands elsewhere.
pub const PN_XNUM: u16 = 0xffff;

/// What the loader takes from an ELF header.
#[derive(Clone, Copy)]
pub(crate) struct Header {
    /// The address of the first instruction.
    pub(crate) entry: u32,
    /// The place of the program headers in the file.
    pub(crate) table: u32,
    /// How many program headers there are.
    pub(crate) count: u16,
}

impl Header {
    /// Reads the ELF header of a file, or refuses the file by the rules 1 to 7.
    #[tactic(auto, unfolding(crate::specs::Elf::header_rules))]
    pub(crate) fn read(bytes: &[u8]) -> Result<Header, ImageError>
        ensures unbroken { IfOk result (λ _. first_broken (header_rules bytes.now) ≡ None) }
        ensures header { IfOk result (IsHeaderOf bytes.now) }
        ensures refused { IfErr result (NamesRule (first_broken (header_rules bytes.now))) }
    {
        if bytes.len() < HEADER_SIZE {
            return Err(ImageError::Refused(1));
        }
        if !bytes.starts_with(&MAGIC) {
            return Err(ImageError::Refused(2));
        }
        if bytes[4] != ELFCLASS32
            || bytes[5] != ELFDATA2LSB
            || bytes[6] != EV_CURRENT
            || read_word(bytes, 20) != u32::from(EV_CURRENT)
        {
            return Err(ImageError::Refused(3));
        }
        if read_half(bytes, 16) != ET_EXEC {
            return Err(ImageError::Refused(4));
        }
        if read_half(bytes, 18) != EM_RISCV {
            return Err(ImageError::Refused(5));
        }
        let count = read_half(bytes, 44);
        if usize::from(read_half(bytes, 42)) != PROGRAM_HEADER_SIZE || count == PN_XNUM {
            return Err(ImageError::Refused(6));
        }
        let table = read_word(bytes, 28);
        if bytes.len() < table as usize + PROGRAM_HEADER_SIZE * usize::from(count) {
            return Err(ImageError::Refused(7));
        }
        Ok(Header {
            entry: read_word(bytes, 24),
            table,
            count,
        })
    }
}
