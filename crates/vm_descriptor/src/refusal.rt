//! Why bytes are no descriptor.

ghost use Rattle.std.specs.Prelude.{◌≡◌, ◌≤◌, ◌&&◌, nat_le, length, IsTrue, IfErr, IfOk};
ghost use Rattle.console_port.specs.declared.port.TheConstants.{MAX_INPUT};
ghost use Rattle.vm_descriptor.specs.declared.descriptor.TheConstants.{MAX_CLONES, MAX_LIMIT, MAX_SHARE};
ghost use Rattle.vm_descriptor.specs.Fields.{aligned, between, number_in, up_to};
ghost use Rattle.guest_pmp.specs.Registers.{at_reset as no_entries};
ghost use Rattle.vm_descriptor.specs.Versions.{IsVersion};
ghost use Rattle.vm_descriptor.specs.Described.{IsReadable, IsRefused, are_csrs, are_entries, are_in_range, entries_in, is_reservation, unread};

use crate::descriptor::{MAX_CLONES, MAX_LIMIT, MAX_SHARE, NO_ENTRIES};
use crate::error::DescError;
use crate::map::{form_of, is_whole, map_of, misread};
use crate::read::{csrs_at, doubles_at, entries_in, words_at};
use crate::version::{HEADER_SIZE, IDENTITY, PAGES, PORTS, TIMES, Version, version_of};
use console_port::MAX_INPUT;
use elf_load::RAM_BASE;
use flat_memory::read_word;
use page_frames::PAGE_SIZE;
use rv_traps::CsrRegisters;

/// The version of bytes that no reason refuses, but maybe that the other form of the map is due, or else the first
/// reason.
pub(crate) fn readable(bytes: &[u8]) -> Result<&'static Version, DescError>
    ensures readable { IfOk result (λ version. IsReadable version.now bytes.now) }
    ensures refused { IfErr result (IsRefused bytes.now) }
{
    if bytes.len() < HEADER_SIZE {
        return Err(DescError::Refused(1));
    }
    let Some(version) = version_of(bytes) else {
        return Err(DescError::Refused(2));
    };
    if let Some(number) = unread(version, bytes) {
        return Err(DescError::Refused(number));
    }
    Ok(version)
}

/// The number of the first reason why bytes are none of a version, but that the other form of the map is due.
#[tactic(auto, unfolding(crate::specs::Described::unread))]
fn unread(version: &Version, bytes: &[u8]) -> Option<u32>
    requires known { IsVersion version.now }
    requires long { HEADER_SIZE ≤ length bytes.now }
    ensures { result ≡ unread version.now bytes.now }
{
    let pages = read_word(bytes, PAGES);
    if !has_pages(version, pages) {
        return Some(3);
    }
    if bytes.len() < version.fields {
        return Some(4);
    }
    let rest = bytes.split_at(version.fields).1;
    if !is_whole(version.has_forms, pages, rest) {
        return Some(4);
    }
    if !are_fields_in_range(bytes) {
        return Some(5);
    }
    if !are_entries(version.has_entries, bytes) {
        return Some(5);
    }
    misread(
        form_of(version.has_forms, rest),
        pages,
        map_of(version.has_forms, rest),
    )
}

/// Whether each byte of an entry of memory protection is one that a register can hold.
fn are_entries(has_entries: bool, bytes: &[u8]) -> bool
    requires { IsTrue has_entries → 816 ≤ length bytes.now }
    ensures { result ≡ are_entries (entries_in has_entries bytes.now) }
{
    entries_in(has_entries, bytes).is_in_range()
}

/// Whether a version can tell of so many pages.
fn has_pages(version: &Version, pages: u32) -> bool
    ensures { result ≡ between version.now.least_pages version.now.most_pages pages }
{
    version.least_pages <= pages && pages <= version.most_pages
}

/// Whether each field is in its range.
fn are_fields_in_range(bytes: &[u8]) -> bool
    requires { HEADER_SIZE ≤ length bytes.now }
    ensures { result ≡ are_in_range (number_in bytes.now) }
{
    let [_image, pages, clone_id, share, pc] = words_at::<5>(bytes, IDENTITY);
    let [_mtime, _mtimecmp, steps, limit] = doubles_at::<4>(bytes, TIMES);
    let [reserved, address, place, line_control, _sector, status] = words_at::<6>(bytes, PORTS);
    let is_clone = is_of_a_clone(clone_id, share, pc);
    let is_csrs = are_csrs(&csrs_at(bytes, NO_ENTRIES));
    let is_limited = is_limit(limit);
    let are_ports = are_of_ports(reserved, place, line_control, status);
    let agree = is_within(steps, limit, pages, reserved, address);
    are_all(is_clone, is_csrs, is_limited, are_ports, agree)
}

fn are_all(first: bool, second: bool, third: bool, fourth: bool, last: bool) -> bool
    ensures { result ≡ (first && (second && (third && (fourth && last)))) }
{
    first && second && third && fourth && last
}

fn is_of_a_clone(clone_id: u32, share: u32, pc: u32) -> bool
    ensures { result ≡ (between 1 MAX_CLONES clone_id && (up_to MAX_SHARE share && aligned pc)) }
{
    (1..=MAX_CLONES).contains(&clone_id) && share <= MAX_SHARE && pc % 4 == 0
}

/// Whether the registers but the entries of memory protection are in range.
fn are_csrs(csrs: &CsrRegisters) -> bool
    requires { csrs.now.pmp ≡ no_entries }
    ensures { result ≡ are_csrs csrs.now }
{
    csrs.is_in_range()
}

fn is_limit(limit: u64) -> bool
    ensures { result ≡ between 1 MAX_LIMIT limit }
{
    (1..=MAX_LIMIT).contains(&limit)
}

fn are_of_ports(reserved: u32, place: u32, line_control: u32, status: u32) -> bool
    ensures { result ≡ (up_to 1 reserved && (up_to MAX_INPUT place && (up_to 255 line_control && up_to 2 status))) }
{
    reserved <= 1 && place as usize <= MAX_INPUT && line_control <= 255 && status <= 2
}

/// Whether the steps are within the limit, and a reservation in RAM.
fn is_within(steps: u64, limit: u64, pages: u32, reserved: u32, address: u32) -> bool
    ensures { result ≡ (nat_le steps limit && is_reservation pages reserved address) }
{
    steps <= limit && is_reserved(pages, reserved, address)
}

fn is_reserved(pages: u32, reserved: u32, address: u32) -> bool
    ensures { result ≡ is_reservation pages reserved address }
{
    let end = u64::from(RAM_BASE) + PAGE_SIZE as u64 * u64::from(pages);
    if reserved == 0 {
        return address == 0;
    }
    address % 4 == 0 && address >= RAM_BASE && u64::from(address) < end
}
