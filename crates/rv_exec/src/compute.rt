ghost use Rattle.std.specs.Prelude.{◌≡◌, ◌⊎◌, ◌^◌};
ghost use Rattle.rv_decode.specs.declared.kinds.Group.TheVariants.{Compute, ComputeImmediate};
ghost use Rattle.rv_decode.specs.Kinds.{group_of};
ghost use Rattle.rv_exec.specs.Words.{word_of, floor_div};
ghost use Rattle.rv_exec.specs.Compute.{alu, signed_high_product, mixed_high_product, unsigned_high_product, signed_quotient, unsigned_quotient, signed_remainder, unsigned_remainder};

use rv_decode::Kind;

/// What a computing instruction writes to `rd`: `a` is the register `rs1`, `b` the register `rs2` or
/// the immediate.
#[inline]
#[tactic(auto, unfolding(rv_decode::specs::Kinds::group_of))]
pub fn alu(kind: Kind, a: u32, b: u32) -> u32
    requires { (group_of kind ≡ ComputeImmediate) ⊎ (group_of kind ≡ Compute) }
    ensures { result ≡ alu kind a b }
{
    match kind {
        Kind::Addi | Kind::Add => a.wrapping_add(b),
        Kind::Sub => a.wrapping_sub(b),
        Kind::Slti | Kind::Slt => u32::from(a.cast_signed() < b.cast_signed()),
        Kind::Sltiu | Kind::Sltu => u32::from(a < b),
        Kind::Xori | Kind::Xor => a ^ b,
        Kind::Ori | Kind::Or => a | b,
        Kind::Andi | Kind::And => a & b,
        Kind::Slli | Kind::Sll => a << (b % 32),
        Kind::Srli | Kind::Srl => a >> (b % 32),
        Kind::Srai | Kind::Sra => (a.cast_signed() >> (b % 32)).cast_unsigned(),
        Kind::Mul => a.wrapping_mul(b),
        Kind::Mulh => signed_high_product(a, b),
        Kind::Mulhsu => mixed_high_product(a, b),
        Kind::Mulhu => unsigned_high_product(a, b),
        Kind::Div => signed_quotient(a, b),
        Kind::Divu => unsigned_quotient(a, b),
        Kind::Rem => signed_remainder(a, b),
        Kind::Remu => unsigned_remainder(a, b),
        _ => unreachable!(),
    }
}

/// Bits 63:32 of the product of signed numbers.
#[inline]
fn signed_high_product(a: u32, b: u32) -> u32
    ensures { result ≡ signed_high_product a b }
{
    high_half(i64::from(a.cast_signed()) * i64::from(b.cast_signed()))
}

/// Bits 63:32 of the product of `a`, signed, and `b`, unsigned.
#[inline]
fn mixed_high_product(a: u32, b: u32) -> u32
    ensures { result ≡ mixed_high_product a b }
{
    high_half(i64::from(a.cast_signed()) * i64::from(b))
}

/// Bits 63:32 of the product of unsigned numbers.
#[inline]
fn unsigned_high_product(a: u32, b: u32) -> u32
    ensures { result ≡ unsigned_high_product a b }
{
    (u64::from(a) * u64::from(b) >> 32) as u32
}

/// Bits 63:32.
#[inline]
fn high_half(product: i64) -> u32
    ensures { result ≡ word_of (floor_div product (2 ^ 32)) }
{
    (product.cast_unsigned() >> 32) as u32
}

/// The quotient of signed numbers, with every bit set where `b` is 0.
#[inline]
fn signed_quotient(a: u32, b: u32) -> u32
    ensures { result ≡ signed_quotient a b }
{
    if b == 0 {
        u32::MAX
    } else {
        a.cast_signed()
            .wrapping_div(b.cast_signed())
            .cast_unsigned()
    }
}

/// The quotient of unsigned numbers, with every bit set where `b` is 0.
#[inline]
fn unsigned_quotient(a: u32, b: u32) -> u32
    ensures { result ≡ unsigned_quotient a b }
{
    if b == 0 { u32::MAX } else { a / b }
}

/// The remainder of signed numbers, and `a` where `b` is 0.
#[inline]
fn signed_remainder(a: u32, b: u32) -> u32
    ensures { result ≡ signed_remainder a b }
{
    if b == 0 {
        a
    } else {
        a.cast_signed()
            .wrapping_rem(b.cast_signed())
            .cast_unsigned()
    }
}

/// The remainder of unsigned numbers, and `a` where `b` is 0.
#[inline]
fn unsigned_remainder(a: u32, b: u32) -> u32
    ensures { result ≡ unsigned_remainder a b }
{
    if b == 0 { a } else { a % b }
}
