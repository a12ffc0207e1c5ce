//! What the fields of bytes say.

ghost use Rattle.std.specs.Prelude.{◌≡◌, ◌+◌, ◌*◌, ◌≤◌, ◌++◌, length, take, drop, true, None, IsTrue, IfOk, IfErr};
ghost use Rattle.byteorder.specs.Endian.{little_from};
ghost use Rattle.vm_descriptor.specs.declared.descriptor.Descriptor.{Descriptor};
ghost use Rattle.vm_descriptor.specs.Descriptor.{IsInRange};
ghost use Rattle.vm_descriptor.specs.Fields.{LineControl, mode_of, mstatus_in, number_in};
ghost use Rattle.vm_descriptor.specs.Versions.{IsVersion};
ghost use Rattle.vm_descriptor.specs.Described.{Fits, IsGiven, IsReadAs, IsRefused, IsSpelling, csrs_of, described, entries_in, numbers_from, read, read_as, refused, reservation_of, status_of};

use crate::descriptor::{Descriptor, NO_ENTRIES};
use crate::error::DescError;
use crate::map::{is_due, read_map};
use crate::page_map::PageMap;
use crate::refusal::readable;
use crate::version::{
    ADDRESSES, BUFFER, COUNTERS, CSRS, HEADER_SIZE, IDENTITY, PAGES, PORTS, REGISTERS, TIMES,
    Version,
};
use block_port::{BlockFields, Status};
use byteorder::{ByteOrder, LittleEndian};
use console_port::ConsoleFields;
use cow_disk::SECTOR_SIZE;
use flat_memory::read_word;
use guest_pmp::{ENTRIES, Mode, PmpRegisters};
use rv_traps::CsrRegisters;
use std::alloc::{AllocError, Global};
use timer_port::TimerRegisters;

impl Descriptor {
    /// Reads a descriptor in whichever version, or refuses the bytes by the first reason. The spellings of a descriptor
    /// in range are read as it was, and no others are taken.
    pub fn decode(alloc: Global, bytes: &[u8]) -> Result<Descriptor, DescError>
        ensures accepts { IfOk result (λ d. refused bytes.now ≡ None) }
        ensures reads { IfOk result (λ d. d ≡ read bytes.now) }
        ensures spelled { IfOk result (λ d. IsSpelling d bytes.now) }
        ensures in_range { IfOk result IsInRange }
        ensures taken { (d : Descriptor) → Fits d → IsInRange d → IsSpelling d bytes.now → IsReadAs d result }
        ensures refuses { IfErr result (IsRefused bytes.now) }
    {
        let version = readable(bytes)?;
        let descriptor = read_fields(alloc, version, bytes)?;
        let rest = bytes.split_at(version.fields).1;
        let due = is_due(alloc, version.has_forms, rest, &descriptor.blank)?;
        if !due {
            return Err(DescError::Refused(7));
        }
        Ok(descriptor)
    }

    /// The bytes in the newest version of what bytes in whichever version say. They are refused just where `decode`
    /// refuses them.
    pub fn migrate(alloc: Global, bytes: &[u8]) -> Result<Vec<u8>, DescError>
        ensures accepts { IfOk result (λ new. refused bytes.now ≡ None) }
        ensures migrates { IfOk result (λ new. new.items ≡ described (read bytes.now)) }
        ensures taken { (d : Descriptor) → Fits d → IsInRange d → IsSpelling d bytes.now → IsGiven (λ new. new.items ≡ described d) result }
        ensures refuses { IfErr result (IsRefused bytes.now) }
    {
        let descriptor = Descriptor::decode(alloc, bytes)?;
        Ok(descriptor.encode(alloc)?)
    }
}

/// What bytes of a version say.
pub(crate) fn read_fields(
    alloc: Global,
    version: &Version,
    bytes: &[u8],
) -> Result<Descriptor, AllocError>
    requires known { IsVersion version.now }
    requires whole { version.now.fields ≤ length bytes.now }
    requires line_control { number_in bytes.now LineControl ≤ 255 }
    ensures { IfOk result (λ d. d ≡ read_as version.now bytes.now) }
{
    let blank = map_behind(alloc, version, bytes)?;
    Ok(with_fields(version, bytes, blank))
}

/// The map behind the fields of bytes of a version.
pub(crate) fn map_behind(
    alloc: Global,
    version: &Version,
    bytes: &[u8],
) -> Result<PageMap, AllocError>
    requires known { IsVersion version.now }
    requires whole { version.now.fields ≤ length bytes.now }
    ensures { IfOk result (λ map. map ≡ (read_as version.now bytes.now).blank) }
{
    let pages = read_word(bytes, PAGES);
    let rest = bytes.split_at(version.fields).1;
    read_map(alloc, version.has_forms, pages, rest)
}

/// What the fields of bytes of a version say, with the map that stands behind them.
pub(crate) fn with_fields(version: &Version, bytes: &[u8], blank: PageMap) -> Descriptor
    requires known { IsVersion version.now }
    requires whole { version.now.fields ≤ length bytes.now }
    requires line_control { number_in bytes.now LineControl ≤ 255 }
    requires map { blank ≡ (read_as version.now bytes.now).blank }
    ensures { result ≡ read_as version.now bytes.now }
{
    let [image, pages, clone_id, share, pc] = words_at::<5>(bytes, IDENTITY);
    let [mtime, mtimecmp, steps, limit] = doubles_at::<4>(bytes, TIMES);
    let [
        reserved,
        address,
        place,
        line_control,
        sector,
        status,
        argument_0,
        argument_1,
        join_select,
        granted,
    ] = words_at::<10>(bytes, PORTS);
    Descriptor {
        image,
        pages,
        clone_id,
        share,
        pc,
        registers: words_at::<31>(bytes, REGISTERS),
        csrs: csrs_at(bytes, entries_in(version.has_entries, bytes)),
        timer: TimerRegisters { mtime, mtimecmp },
        steps,
        limit,
        reservation: reservation_in(reserved, address),
        console: ConsoleFields {
            place,
            line_control: line_control as u8,
        },
        block: BlockFields {
            sector,
            status: status_in(status),
            buffer: buffer_in(bytes),
        },
        argument_0,
        argument_1,
        join_select,
        granted,
        blank,
    }
}

/// The control and status registers.
#[inline]
pub(crate) fn csrs_at(bytes: &[u8], pmp: PmpRegisters) -> CsrRegisters
    requires { HEADER_SIZE ≤ length bytes.now }
    ensures { result ≡ csrs_of (number_in bytes.now) pmp }
{
    let [word, mie, mtvec, mscratch, mepc, mcause, mtval] = words_at::<7>(bytes, CSRS);
    let [mcycle, minstret] = doubles_at::<2>(bytes, COUNTERS);
    CsrRegisters {
        mode: mode_of(word),
        mstatus: mstatus_in(word),
        mie,
        mtvec,
        mscratch,
        mepc,
        mcause,
        mtval,
        mcycle,
        minstret,
        pmp,
    }
}

/// The mode, which stands in bit 31 of the word of mstatus.
fn mode_of(word: u32) -> Mode
    ensures { result ≡ mode_of word }
{
    if word / 0x8000_0000 % 2 == 1 {
        Mode::User
    } else {
        Mode::Machine
    }
}

/// The word of mstatus without the mode.
fn mstatus_in(word: u32) -> u32
    ensures { result ≡ mstatus_in word }
{
    word % 0x8000_0000
}

/// The entries of memory protection, which are 0 in a version that has none.
pub(crate) fn entries_in(has_entries: bool, bytes: &[u8]) -> PmpRegisters
    requires { IsTrue has_entries → 816 ≤ length bytes.now }
    ensures { result ≡ entries_in has_entries bytes.now }
{
    if has_entries {
        entries_at(bytes)
    } else {
        NO_ENTRIES
    }
}

/// The entries of memory protection in a version that has them.
fn entries_at(bytes: &[u8]) -> PmpRegisters
    requires { 816 ≤ length bytes.now }
    ensures { result ≡ entries_in true bytes.now }
{
    let mut configurations = [0; ENTRIES];
    configurations.copy_from_slice(&bytes[HEADER_SIZE..ADDRESSES]);
    PmpRegisters {
        configurations,
        addresses: words_at::<8>(bytes, ADDRESSES),
    }
}

fn reservation_in(reserved: u32, address: u32) -> Option<u32>
    ensures { result ≡ reservation_of reserved address }
{
    if reserved == 0 { None } else { Some(address) }
}

/// The buffer of the block port.
#[inline]
fn buffer_in(bytes: &[u8]) -> [u8; SECTOR_SIZE]
    requires { HEADER_SIZE ≤ length bytes.now }
    ensures { result ≡ take 512 (drop 264 bytes.now) }
{
    let mut buffer = [0; SECTOR_SIZE];
    buffer.copy_from_slice(&bytes[BUFFER..HEADER_SIZE]);
    buffer
}

fn status_in(word: u32) -> Status
    ensures { result ≡ status_of word }
{
    match word {
        0 => Status::Done,
        1 => Status::BadSector,
        _ => Status::UnknownCommand,
    }
}

/// The words from a place on.
#[inline]
pub(crate) fn words_at<const N: usize>(bytes: &[u8], at: usize) -> [u32; N]
    requires { at + 4 * N ≤ length bytes.now }
    ensures { result ≡ numbers_from 4 N at bytes.now }
{
    let mut words = [0; N];
    for index in 0..N {
        words[index] = read_word(bytes, at + 4 * index);
    }
    words
}

/// The numbers of 64 bits from a place on.
#[inline]
pub(crate) fn doubles_at<const N: usize>(bytes: &[u8], at: usize) -> [u64; N]
    requires { at + 8 * N ≤ length bytes.now }
    ensures { result ≡ numbers_from 8 N at bytes.now }
{
    let mut doubles = [0; N];
    for index in 0..N {
        doubles[index] = read_double(bytes, at + 8 * index);
    }
    doubles
}

/// The number of 64 bits in the eight bytes from `at`.
pub(crate) fn read_double(bytes: &[u8], at: usize) -> u64
    requires { at + 8 ≤ length bytes.now }
    ensures { result ≡ little_from at 8 bytes.now }
{
    LittleEndian::read_u64(&bytes[at..])
}
