ghost use Rattle.std.specs.Prelude.{◌≡◌};
ghost use Rattle.rv_decode.specs.declared.kinds.Group.TheVariants.{Amo};
ghost use Rattle.rv_decode.specs.Kinds.{group_of};
ghost use Rattle.rv_exec.specs.Atomic.{amo_value};

use rv_decode::Kind;

/// The word that an atomic memory operation leaves where `old` was: `source` is the register `rs2`.
#[inline]
#[tactic(auto, unfolding(rv_decode::specs::Kinds::group_of))]
pub fn amo_value(kind: Kind, old: u32, source: u32) -> u32
    requires { group_of kind ≡ Amo }
    ensures { result ≡ amo_value kind old source }
{
    match kind {
        Kind::AmoswapW => source,
        Kind::AmoaddW => old.wrapping_add(source),
        Kind::AmoxorW => old ^ source,
        Kind::AmoandW => old & source,
        Kind::AmoorW => old | source,
        Kind::AmominW => old.cast_signed().min(source.cast_signed()).cast_unsigned(),
        Kind::AmomaxW => old.cast_signed().max(source.cast_signed()).cast_unsigned(),
        Kind::AmominuW => old.min(source),
        Kind::AmomaxuW => old.max(source),
        _ => unreachable!(),
    }
}
