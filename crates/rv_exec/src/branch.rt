ghost use Rattle.std.specs.Prelude.{◌≡◌};
ghost use Rattle.rv_decode.specs.declared.kinds.Group.TheVariants.{Branch};
ghost use Rattle.rv_decode.specs.Kinds.{group_of};
ghost use Rattle.rv_exec.specs.Branch.{branch_taken};

use rv_decode::Kind;

/// Whether a branch is taken: `a` is the register `rs1`, `b` the register `rs2`.
#[inline]
#[tactic(auto, unfolding(rv_decode::specs::Kinds::group_of))]
pub fn branch_taken(kind: Kind, a: u32, b: u32) -> bool
    requires { group_of kind ≡ Branch }
    ensures { result ≡ branch_taken kind a b }
{
    match kind {
        Kind::Beq => a == b,
        Kind::Bne => a != b,
        Kind::Blt => a.cast_signed() < b.cast_signed(),
        Kind::Bge => a.cast_signed() >= b.cast_signed(),
        Kind::Bltu => a < b,
        Kind::Bgeu => a >= b,
        _ => unreachable!(),
    }
}
