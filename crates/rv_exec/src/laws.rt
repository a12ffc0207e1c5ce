//! Laws of the definitions, each the contract of a function that does nothing.

ghost use Rattle.std.specs.Prelude.{◌≡◌, ℕ};
ghost use Rattle.rv_decode.specs.declared.kinds.Kind.TheVariants.{Div, Divu, Rem, Remu};
ghost use Rattle.rv_exec.specs.Compute.{alu};

/// What division by zero gives, and division of the least number by -1 (RISC-V Unprivileged ISA
/// 20191213, table 7.1).
pub fn division_edges()
    ensures by_zero { (a : ℕ) → (alu Divu a 0 ≡ 0xffff_ffff) × (alu Remu a 0 ≡ a)
        × (alu Div a 0 ≡ 0xffff_ffff) × (alu Rem a 0 ≡ a) }
    ensures overflow { (alu Div 0x8000_0000 0xffff_ffff ≡ 0x8000_0000)
        × (alu Rem 0x8000_0000 0xffff_ffff ≡ 0) }
{}
