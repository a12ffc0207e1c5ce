//! The fields of a word: its registers, and the immediate of each format.

ghost use Rattle.std.specs.Prelude.{◌≡◌, ◌*◌, ◌<◌, ◌≤◌};
ghost use Rattle.rv_decode.specs.Instruction.{IsMultiple, IsSigned};
ghost use Rattle.rv_decode.specs.Table.{rd_field, rs1_field, rs2_field, u_immediate, j_immediate, b_immediate, i_immediate, s_immediate, signed};

/// Bits 11:7.
#[inline]
pub(crate) fn rd(word: u32) -> u8
    ensures value { result ≡ rd_field word }
    ensures register { result < 32 }
{
    (word >> 7 & 31) as u8
}

/// Bits 19:15.
#[inline]
pub(crate) fn rs1(word: u32) -> u8
    ensures value { result ≡ rs1_field word }
    ensures register { result < 32 }
{
    (word >> 15 & 31) as u8
}

/// Bits 24:20.
#[inline]
pub(crate) fn rs2(word: u32) -> u8
    ensures value { result ≡ rs2_field word }
    ensures register { result < 32 }
{
    (word >> 20 & 31) as u8
}

#[inline]
pub(crate) fn u_immediate(word: u32) -> i32
    ensures value { result ≡ u_immediate word }
    ensures multiple { IsMultiple 4096 result }
{
    (word / 4096 * 4096).cast_signed()
}

#[inline]
pub(crate) fn j_immediate(word: u32) -> i32
    ensures value { result ≡ j_immediate word }
    ensures signed { IsSigned 0x10_0000 result }
    ensures even { IsMultiple 2 result }
{
    let upper = (word >> 31) * 0x10_0000 + (word >> 12 & 0xff) * 0x1000;
    let lower = (word >> 20 & 1) * 0x800 + (word >> 21 & 0x3ff) * 2;
    signed(0x10_0000, upper + lower)
}

#[inline]
pub(crate) fn b_immediate(word: u32) -> i32
    ensures value { result ≡ b_immediate word }
    ensures signed { IsSigned 0x1000 result }
    ensures even { IsMultiple 2 result }
{
    let upper = (word >> 31) * 0x1000 + (word >> 7 & 1) * 0x800;
    let lower = (word >> 25 & 0x3f) * 32 + (word >> 8 & 0xf) * 2;
    signed(0x1000, upper + lower)
}

#[inline]
pub(crate) fn i_immediate(word: u32) -> i32
    ensures value { result ≡ i_immediate word }
    ensures signed { IsSigned 0x800 result }
{
    signed(0x800, word >> 20)
}

#[inline]
pub(crate) fn s_immediate(word: u32) -> i32
    ensures value { result ≡ s_immediate word }
    ensures signed { IsSigned 0x800 result }
{
    signed(0x800, (word >> 25) * 32 + u32::from(rd(word)))
}

/// A field in two's complement whose sign bit is worth `half`.
#[inline]
fn signed(half: u32, value: u32) -> i32
    requires limit { half ≤ 0x10_0000 }
    requires field { value < 2 * half }
    ensures value { result ≡ signed half value }
    ensures signed { IsSigned half result }
{
    if value < half {
        value.cast_signed()
    } else {
        value.cast_signed() - (2 * half).cast_signed()
    }
}
