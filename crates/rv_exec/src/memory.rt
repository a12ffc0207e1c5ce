ghost use Rattle.std.specs.Prelude.{◌≡◌, take};
ghost use Rattle.rv_decode.specs.declared.kinds.Group.TheVariants.{Load, Store};
ghost use Rattle.rv_decode.specs.Kinds.{group_of};
ghost use Rattle.rv_exec.specs.Memory.{IsWidth, load_width, load_value, store_width, store_bytes};

use rv_decode::Kind;

/// How many bytes a load reads.
#[inline]
#[tactic(auto, unfolding(rv_decode::specs::Kinds::group_of))]
pub fn load_width(kind: Kind) -> u32
    requires { group_of kind ≡ Load }
    ensures value { result ≡ load_width kind }
    ensures width { IsWidth result }
{
    match kind {
        Kind::Lb | Kind::Lbu => 1,
        Kind::Lh | Kind::Lhu => 2,
        Kind::Lw => 4,
        _ => unreachable!(),
    }
}

/// What a load writes to `rd`, where the bytes that it reads are the lowest of `word`.
#[inline]
#[tactic(auto, unfolding(rv_decode::specs::Kinds::group_of))]
pub fn load_value(kind: Kind, word: u32) -> u32
    requires { group_of kind ≡ Load }
    ensures { result ≡ load_value kind word }
{
    match kind {
        Kind::Lb => i32::from(((word % 0x100) as u8).cast_signed()).cast_unsigned(),
        Kind::Lh => i32::from(((word % 0x1_0000) as u16).cast_signed()).cast_unsigned(),
        Kind::Lw => word,
        Kind::Lbu => word % 0x100,
        Kind::Lhu => word % 0x1_0000,
        _ => unreachable!(),
    }
}

/// How many bytes a store writes.
#[inline]
#[tactic(auto, unfolding(rv_decode::specs::Kinds::group_of))]
pub fn store_width(kind: Kind) -> u32
    requires { group_of kind ≡ Store }
    ensures value { result ≡ store_width kind }
    ensures width { IsWidth result }
{
    match kind {
        Kind::Sb => 1,
        Kind::Sh => 2,
        Kind::Sw => 4,
        _ => unreachable!(),
    }
}

/// The bytes of the register `rs2`, the lowest first, and how many of them a store writes.
#[inline]
#[tactic(auto, unfolding(rv_decode::specs::Kinds::group_of))]
pub fn store_bytes(kind: Kind, value: u32) -> ([u8; 4], u32)
    requires { group_of kind ≡ Store }
    ensures bytes { take result.1 result.0 ≡ store_bytes kind value }
    ensures value { result.1 ≡ store_width kind }
    ensures width { IsWidth result.1 }
{
    (value.to_le_bytes(), store_width(kind))
}
