ghost use Rattle.std.specs.Prelude.{◌≡◌};
ghost use Rattle.elf_load.specs.declared.error.ImageError.TheVariants.{Memory};

use std::alloc::AllocError;
use thiserror::Error;

/// Why an image is not loaded.
#[derive(Clone, Copy, Debug, PartialEq, Eq, Error)]
pub enum ImageError {
    /// The image breaks a rule, and this is the first that it breaks:
    ///
    /// 1. The file has at least 52 bytes.
    /// 2. It begins with the magic number.
    /// 3. It is of class 32 and little endian, and its version is 1.
    /// 4. It is an executable.
    /// 5. It is for RISC-V.
    /// 6. A program header has 32 bytes, and their number is not marked as extended.
    /// 7. The program headers end within the file.
    /// 8. No segment has more bytes in the file than in memory.
    /// 9. The bytes of each segment end within the file.
    /// 10. Each segment lies within RAM.
    /// 11. No two segments share a byte.
    /// 12. The entry is in RAM and a multiple of 4.
    #[error("the image is refused by rule {0}")]
    Refused(u32),
    /// Out of memory.
    #[error("out of memory")]
    Memory,
}

impl From<AllocError> for ImageError {
    ghost from_gives = { λ _ error. error ≡ Memory };

    fn from(_error: AllocError) -> ImageError {
        ImageError::Memory
    }
}
