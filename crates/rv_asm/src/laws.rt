//! Laws of the definitions, each the contract of a function that does nothing.

ghost use Rattle.std.specs.Prelude.{◌≡◌, ℕ, ◌+◌, ◌-◌, ◌*◌, ◌^◌, ◌<◌, ◌≤◌, ◌⊎◌, ◌↔◌, List, length, slice_index, slice_get, All, IsTrue, Some, Ok, Err, IsOkAnd};
ghost use Rattle.flat_memory.specs.Flat.{word_at};
ghost use Rattle.elf_load.specs.Elf.{loaded};
ghost use Rattle.elf_load.specs.OneSegment.{elf_of, bytes_of_words, image_of_code};
ghost use Rattle.elf_load.specs.declared.image.TheConstants.{RAM_BASE};
ghost use Rattle.rv_decode.specs.Instruction.{Instruction, IsInstruction};
ghost use Rattle.rv_decode.specs.Table.{decoded};
ghost use Rattle.rv_asm.specs.Encode.{encoded};
ghost use Rattle.rv_asm.specs.Offset.{takes_label, offset, reaches};
ghost use Rattle.rv_asm.specs.Listing.{Listing, instruction_of, assembled, FailsFirst};
ghost use Rattle.rv_asm.specs.declared.error.AsmError.{AsmError};
ghost use Rattle.rv_asm.specs.declared.line.ProgramLine.{ProgramLine};
ghost use Rattle.rv_asm.specs.Fit.{IsBuilt, FitsInRam, misfit};

/// The word of an instruction decodes to it.
pub fn words_decode()
    ensures { (i : Instruction) → IsInstruction i → decoded (encoded i) ≡ Some i }
{}

/// An offset is in reach exactly where the instruction with it is one of its format.
pub fn reach_is_the_range()
    ensures { (i : Instruction) (at place : ℕ) → IsTrue (takes_label i.kind) → IsInstruction i
        → IsTrue (reaches i.kind at place) ↔ IsInstruction (record i { imm = offset at place }) }
{}

/// A program is assembled line by line: each gives the word at its place, and where there is none the first
/// that gives an error names it.
pub fn lines_give_words()
    ensures count { (p : Listing) (words : List ℕ) → assembled p ≡ Ok words → length words ≡ length p.lines }
    ensures each { (p : Listing) (words : List ℕ) (k : ℕ) (line : ProgramLine) → assembled p ≡ Ok words → slice_get p.lines k ≡ Some line
        → IsOkAnd (instruction_of p k line) (λ i. slice_get words k ≡ Some (encoded i)) }
    ensures first_error { (p : Listing) (error : AsmError) → assembled p ≡ Err error → FailsFirst p error }
{}

/// The loader takes what `elf_of` writes exactly where the words fit in RAM. RAM then has these words from
/// their address on and zeros elsewhere, and the machine starts at the first of them.
pub fn images_are_loaded()
    ensures loads { (base : ℕ) (words : List ℕ) (pages : ℕ) → IsBuilt base words pages → FitsInRam base words pages
        → loaded (elf_of base (bytes_of_words words)) pages ≡ Ok (image_of_code base (bytes_of_words words) pages) }
    ensures refuses { (base : ℕ) (words : List ℕ) (pages : ℕ) → IsBuilt base words pages → ¬ (FitsInRam base words pages)
        → loaded (elf_of base (bytes_of_words words)) pages ≡ Err (misfit words) }

    // The words of RAM are the words of the program, and there is nothing else in it.
    ensures words { (base : ℕ) (words : List ℕ) (pages k : ℕ) → FitsInRam base words pages → All (λ word. word < 2 ^ 32) words → k < length words
        → word_at (image_of_code base (bytes_of_words words) pages).ram (base - RAM_BASE + 4 * k) ≡ slice_index words k }
    ensures nothing_else { (base : ℕ) (words : List ℕ) (pages at : ℕ) → FitsInRam base words pages
        → (RAM_BASE + at < base) ⊎ (base + 4 * length words ≤ RAM_BASE + at)
        → slice_index (image_of_code base (bytes_of_words words) pages).ram at ≡ 0 }
    ensures entered { (base : ℕ) (words : List ℕ) (pages : ℕ) → (image_of_code base (bytes_of_words words) pages).entry ≡ base }
{}
