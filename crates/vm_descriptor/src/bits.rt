//! The map of pages as a bit for each of them.

ghost use Rattle.std.specs.Prelude.{◌≡◌, ◌+◌, ◌-◌, ◌≤◌, ◌<◌, ◌^◌, ◌++◌, ℕ, Bool, false, List, min, replicate, IfOk, OnOk};
ghost use Rattle.vm_descriptor.specs.MadeRuns.{IsInTurn, from_the_start};
ghost use Rattle.vm_descriptor.specs.Maps.{bits_of, flags_of, flags_of_runs, has_spare_bit, map_bytes, whole_byte};

use crate::made_runs::MadeRuns;
use crate::read::read_double;
use std::alloc::{AllocError, Global};

/// The bits of the last byte of a map, as long as these are fewer than eight.
#[derive(Clone, Copy)]
struct FewBits {
    byte: u8,
    count: u32,
}

/// Adds the bytes of a map with a bit for each flag of runs.
pub(crate) fn push_map(bytes: &mut Vec<u8>, lengths: &[u16]) -> Result<(), AllocError>
    ensures { OnOk result (bytes.new.items ≡ bytes.old.items ++ map_bytes (flags_of_runs false lengths.now)) }
{
    let mut last = FewBits { byte: 0, count: 0 };
    let mut flag = false;
    for run in lengths {
        last = push_run(bytes, last, flag, *run)?;
        flag = !flag;
    }
    if last.count > 0 {
        bytes.push(last.byte)?;
    }
    Ok(())
}

/// Adds a bit for each flag of a run behind bits that are not added yet, and gives those that fill no byte.
fn push_run(bytes: &mut Vec<u8>, last: FewBits, flag: bool, run: u16) -> Result<FewBits, AllocError>
    requires few { last.count < 8 }
    requires below { last.byte < 2 ^ last.count }
    ensures few { IfOk result (λ bits. bits.count < 8) }
    ensures below { IfOk result (λ bits. bits.byte < 2 ^ bits.count) }
    ensures added { IfOk result (λ bits. (later : List Bool)
        → bytes.new.items ++ map_bytes (bits_of bits.count bits.byte ++ later) ≡ bytes.old.items ++ map_bytes (bits_of last.count last.byte ++ (replicate run flag ++ later))) }
{
    let end = last.count + u32::from(run);
    if end < 8 {
        let byte = filled(last.byte, flag, last.count, end);
        return Ok(FewBits { byte, count: end });
    }
    bytes.push(filled(last.byte, flag, last.count, 8))?;
    push_whole(bytes, flag, end / 8 - 1)?;
    let count = end % 8;
    let byte = filled(0, flag, 0, count);
    Ok(FewBits { byte, count })
}

/// Adds so many bytes of equal bits.
fn push_whole(bytes: &mut Vec<u8>, flag: bool, count: u32) -> Result<(), AllocError>
    ensures { OnOk result (bytes.new.items ≡ bytes.old.items ++ replicate count (whole_byte flag)) }
{
    let end = bytes.len() + count as usize;
    bytes.resize(end, whole_byte(flag))
}

/// The byte of eight equal bits.
fn whole_byte(flag: bool) -> u8
    ensures { result ≡ whole_byte flag }
{
    if flag { 255 } else { 0 }
}

/// The number of so many bits, behind which equal ones stand up to another number of them.
#[tactic(auto, using(crate::proofs::BitRuns::bits_filled, crate::proofs::BitRuns::filled_below))]
fn filled(byte: u8, flag: bool, from: u32, to: u32) -> u8
    requires order { from ≤ to }
    requires most { to ≤ 8 }
    requires below { byte < 2 ^ from }
    ensures bits { bits_of to result ≡ bits_of from byte ++ replicate (to - from) flag }
    ensures below { result < 2 ^ to }
{
    if flag {
        byte + (ones(to) - ones(from))
    } else {
        byte
    }
}

/// The number of so many bits that are all 1.
#[tactic(auto, using(crate::proofs::BitRuns::ones_at))]
fn ones(count: u32) -> u8
    requires { count ≤ 8 }
    ensures { result + 1 ≡ 2 ^ count }
{
    [0, 1, 3, 7, 15, 31, 63, 127, 255][count as usize]
}

/// So many flags, eight in a byte, as the lengths of runs of equal flags. They are read by words of 64.
pub(crate) fn read_flags(alloc: Global, count: u32, map: &[u8]) -> Result<Vec<u16>, AllocError>
    ensures { IfOk result (λ lengths. flags_of_runs false lengths.items ≡ flags_of count map.now) }
{
    let mut runs = MadeRuns::new(alloc);
    let mut left = count;
    let mut bytes = map;
    'words: while let Some((eight, behind)) = bytes.split_first_chunk::<8>() {
        left -= put_eight(&mut runs, eight, left)?;
        bytes = behind;
    }
    for byte in bytes {
        let bits = at_most(8, left);
        runs.put_word(u64::from(*byte), bits)?;
        left -= bits;
    }
    runs.into_lengths()
}

/// Puts the flags of eight bytes behind the others, where so many are left, and answers how many these are.
fn put_eight(runs: &mut MadeRuns, eight: &[u8; 8], left: u32) -> Result<u32, AllocError>
    requires { IsInTurn runs.old }
    ensures in_turn { OnOk result (IsInTurn runs.new) }
    ensures most { IfOk result (λ bits. bits ≤ left) }
    ensures behind { IfOk result (λ bits. (rest : List ℕ)
        → from_the_start runs.new ++ flags_of (left - bits) rest ≡ from_the_start runs.old ++ flags_of left (eight.now ++ rest)) }
{
    let bits = at_most(64, left);
    runs.put_word(read_double(eight, 0), bits)?;
    Ok(bits)
}

/// The smaller number.
fn at_most(most: u32, left: u32) -> u32
    ensures { result ≡ min left most }
{
    if most < left { most } else { left }
}

/// Whether a bit past the last page is 1.
#[tactic(auto, using(crate::proofs::BitSteps::none_spare))]
pub(crate) fn has_spare(pages: u32, map: &[u8]) -> bool
    ensures { result ≡ has_spare_bit pages map.now }
{
    if map.is_empty() {
        return false;
    }
    pages % 8 != 0 && map[map.len() - 1] >> (pages % 8) != 0
}
