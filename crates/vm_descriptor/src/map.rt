//! The map of pages, in whichever form it is. What stands behind the fields is the map, and before it the byte of its
//! form in a version that has forms.

ghost use Rattle.std.specs.Prelude.{◌≡◌, ◌<◌, ◌≤◌, ◌^◌, ◌++◌, false, length, IfOk, OnOk};
ghost use Rattle.vm_descriptor.specs.Maps.{due_form, flags_as, flags_of_runs, form_of, is_due, is_sized, is_whole, map_as, map_in, map_of, misread};

use crate::bits::{has_spare, push_map, read_flags};
use crate::page_map::{MapForm, PageMap};
use crate::runs::{are_runs, flag_count, push_runs, read_runs, run_count, runs_in};
use std::alloc::{AllocError, Global};

/// The form that is due: 1, the lengths of runs, where these have fewer bytes, and else 0, a bit for each page.
fn due_form(lengths: &[u16]) -> u8
    requires { length (flags_of_runs false lengths.now) < 2 ^ 16 }
    ensures { result ≡ due_form (flags_of_runs false lengths.now) }
{
    if 2 * run_count(lengths) < (flag_count(lengths) + 7) / 8 {
        1
    } else {
        0
    }
}

/// Adds what stands behind the fields.
#[tactic(auto, using(crate::proofs::RunLengths::flags_in_again))]
pub(crate) fn push_rest(
    bytes: &mut Vec<u8>,
    has_forms: bool,
    map: &PageMap,
) -> Result<(), AllocError>
    requires { length map.now < 2 ^ 16 }
    ensures { OnOk result (bytes.new.items ≡ bytes.old.items ++ map_as has_forms map.now) }
{
    match map.form() {
        MapForm::Flags(flags) => {
            let lengths = runs_in(*bytes.allocator(), flags)?;
            push_flags(bytes, has_forms, &lengths)
        }
        MapForm::Runs(lengths) => push_flags(bytes, has_forms, lengths),
        MapForm::Table(table) => {
            let lengths = table.runs(*bytes.allocator())?;
            push_flags(bytes, has_forms, &lengths)
        }
    }
}

/// Adds the flags of runs in the form that is due.
fn push_flags(bytes: &mut Vec<u8>, has_forms: bool, lengths: &[u16]) -> Result<(), AllocError>
    requires { length (flags_of_runs false lengths.now) < 2 ^ 16 }
    ensures { OnOk result (bytes.new.items ≡ bytes.old.items ++ map_as has_forms (flags_of_runs false lengths.now)) }
{
    if !has_forms {
        return push_map(bytes, lengths);
    }
    let form = due_form(lengths);
    bytes.push(form)?;
    push_in(bytes, form, lengths)
}

/// Adds the flags of runs in a form.
fn push_in(bytes: &mut Vec<u8>, form: u8, lengths: &[u16]) -> Result<(), AllocError>
    requires { length (flags_of_runs false lengths.now) < 2 ^ 16 }
    ensures { OnOk result (bytes.new.items ≡ bytes.old.items ++ map_in form (flags_of_runs false lengths.now)) }
{
    if form == 0 {
        push_map(bytes, lengths)
    } else {
        push_runs(bytes, lengths)
    }
}

/// The form of the map behind the fields.
pub(crate) fn form_of(has_forms: bool, rest: &[u8]) -> u8
    ensures { result ≡ form_of has_forms rest.now }
{
    if has_forms && !rest.is_empty() {
        rest[0]
    } else {
        0
    }
}

/// The map behind the fields.
pub(crate) fn map_of(has_forms: bool, rest: &[u8]) -> &[u8]
    ensures { result.now ≡ map_of has_forms rest.now }
{
    if has_forms && !rest.is_empty() {
        rest.split_at(1).1
    } else {
        rest
    }
}

/// The flags of so many pages.
pub(crate) fn read_map(
    alloc: Global,
    has_forms: bool,
    pages: u32,
    rest: &[u8],
) -> Result<PageMap, AllocError>
    ensures { IfOk result (λ flags. flags ≡ flags_as has_forms pages rest.now) }
{
    let map = map_of(has_forms, rest);
    if form_of(has_forms, rest) == 0 {
        Ok(PageMap::from_runs(read_flags(alloc, pages, map)?))
    } else {
        Ok(PageMap::from_runs(read_runs(alloc, map)?))
    }
}

/// Whether the byte of the form is there, and the map has as many bytes as it asks for.
pub(crate) fn is_whole(has_forms: bool, pages: u32, rest: &[u8]) -> bool
    ensures { result ≡ is_whole has_forms pages rest.now }
{
    if !has_forms {
        return is_sized(0, pages, rest.len());
    }
    match rest.split_first() {
        Some((form, map)) => is_sized(*form, pages, map.len()),
        None => false,
    }
}

fn is_sized(form: u8, pages: u32, size: usize) -> bool
    ensures { result ≡ is_sized form pages size }
{
    if form == 0 {
        size == (pages as usize + 7) / 8
    } else {
        form == 1 && size % 2 == 0
    }
}

/// The number of the first reason why a map of a form is none of so many pages.
pub(crate) fn misread(form: u8, pages: u32, map: &[u8]) -> Option<u32>
    ensures { result ≡ misread form pages map.now }
{
    if form == 0 {
        if has_spare(pages, map) { Some(6) } else { None }
    } else if are_runs(pages, map) {
        None
    } else {
        Some(7)
    }
}

/// Whether no other form of the map behind the fields is due for its flags.
pub(crate) fn is_due(
    alloc: Global,
    has_forms: bool,
    rest: &[u8],
    map: &PageMap,
) -> Result<bool, AllocError>
    requires { length map.now < 2 ^ 16 }
    ensures { IfOk result (λ due. due ≡ is_due has_forms (form_of has_forms rest.now) map.now) }
{
    if !has_forms {
        return Ok(true);
    }
    Ok(form_of(has_forms, rest) == form_due(alloc, map)?)
}

/// The form that is due for the flags of a map.
#[tactic(auto, using(crate::proofs::RunLengths::flags_in_again))]
fn form_due(alloc: Global, map: &PageMap) -> Result<u8, AllocError>
    requires { length map.now < 2 ^ 16 }
    ensures { IfOk result (λ form. form ≡ due_form map.now) }
{
    match map.form() {
        MapForm::Flags(flags) => {
            let lengths = runs_in(alloc, flags)?;
            Ok(due_form(&lengths))
        }
        MapForm::Runs(lengths) => Ok(due_form(lengths)),
        MapForm::Table(table) => {
            let lengths = table.runs(alloc)?;
            Ok(due_form(&lengths))
        }
    }
}
