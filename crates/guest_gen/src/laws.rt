//! Laws of the definitions, each the contract of a function that does nothing.

ghost use Rattle.std.specs.Prelude.{◌≡◌, ℕ, ◌*◌, ◌≤◌, length, slice_get, Some, Ok};
ghost use Rattle.elf_load.specs.Elf.{loaded};
ghost use Rattle.elf_load.specs.OneSegment.{bytes_of_words, image_of_code};
ghost use Rattle.elf_load.specs.declared.image.TheConstants.{RAM_BASE, MIN_PAGES, MAX_PAGES};
ghost use Rattle.rv_decode.specs.declared.kinds.Kind.TheVariants.{Jal};
ghost use Rattle.rv_decode.specs.Instruction.{Instruction};
ghost use Rattle.rv_asm.specs.Offset.{offset};
ghost use Rattle.guest_gen.specs.Blocks.{Code};
ghost use Rattle.guest_gen.specs.Levels.{forked};
ghost use Rattle.guest_gen.specs.Guest.{words, guest};

/// The loader takes each guest, however much RAM there is. RAM then has the guest's words at its start, where
/// the machine starts, and zeros behind them. The words lie below page 16, the first of those that the blocks
/// write and zero.
pub fn guests_are_loaded()
    ensures loads { (seed pages : ℕ) → MIN_PAGES ≤ pages → pages ≤ MAX_PAGES
        → loaded (guest seed) pages ≡ Ok (image_of_code RAM_BASE (bytes_of_words (words seed)) pages) }
    ensures below { (seed : ℕ) → 4 * length (words seed) ≤ 16 * 4096 }
{}

/// The jump of a fork, its last instruction, leads to the end of the level that it is in, where the next
/// level starts.
pub fn children_go_on_at_the_next_level()
    ensures { (register share : ℕ) (rest : Code) → let level = forked register share rest in
        let jump : Instruction = record { kind = Jal; rd = 0; rs1 = 0; rs2 = 0; imm = offset 12 (length level) } in
        slice_get level 12 ≡ Some jump }
{}
