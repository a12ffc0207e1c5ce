//! The fields of a line.

ghost use Rattle.std.specs.Prelude.{◌≡◌, ◌∷◌, ◌<◌, length, IfSome, MatchOption, option_map};
ghost use Rattle.drive_script.specs.Script.{address_of, fields_beyond, fork_before, forks_of, has_leading_zero, is_decimal};
ghost use Rattle.drive_script.specs.Script.{number_of, number_within, one_of, parts, parts_beyond, two_of};

use hex::FromHex;
use std::str;

/// Stands between lines.
pub(crate) const NEWLINE: u8 = b'\n';

/// Stands between the fields of a line.
pub(crate) const SPACE: u8 = b' ';

/// Stands between the parts of a name.
pub(crate) const DOT: u8 = b'.';

const ZERO: u8 = b'0';

/// The text before the first separator, and the text after it if there is one.
pub(crate) fn cut(text: &[u8], separator: u8) -> (&[u8], Option<&[u8]>)
    ensures parts { parts separator text.now ≡ result.0.now ∷ parts_beyond separator (option_map (λ rest. rest.now) result.1) }
    ensures shorter { IfSome result.1 (λ rest. length rest.now < length text.now) }
{
    match text.iter().position(|byte| *byte == separator) {
        None => (text, None),
        Some(at) => {
            let (first, rest) = text.split_at(at);
            (first, Some(rest.split_at(1).1))
        }
    }
}

/// A number from `least` to `most`.
pub(crate) fn number_within(text: &[u8], least: u32, most: u32) -> Option<u32>
    ensures { result ≡ number_within least most text.now }
{
    match number_of(text) {
        Some(number) if least <= number && number <= most => Some(number),
        _ => None,
    }
}

/// The number that decimal digits are, if it has 32 bits.
fn number_of(text: &[u8]) -> Option<u32>
    ensures { result ≡ number_of text.now }
{
    if !is_decimal(text) {
        return None;
    }
    match str::from_utf8(text) {
        Ok(digits) => digits.parse().ok(),
        Err(_) => None,
    }
}

/// Whether a text is decimal digits, with no zero before others.
fn is_decimal(text: &[u8]) -> bool
    ensures { result ≡ is_decimal text.now }
{
    if text.is_empty() || has_leading_zero(text) {
        return false;
    }
    text.iter().all(|byte| byte.is_ascii_digit())
}

/// Whether a zero stands before other digits.
fn has_leading_zero(text: &[u8]) -> bool
    ensures { result ≡ has_leading_zero text.now }
{
    text.len() > 1 && text[0] == ZERO
}

/// The address that eight hexadecimal digits of either case are.
pub(crate) fn address_of(text: &[u8]) -> Option<u32>
    ensures { result ≡ address_of text.now }
{
    match <[u8; 4]>::from_hex(text) {
        Ok(bytes) => Some(u32::from_be_bytes(bytes)),
        Err(_) => None,
    }
}

/// The only field.
pub(crate) fn one_field(fields: Option<&[u8]>) -> Option<&[u8]>
    ensures { option_map (λ one. one.now) result ≡ one_of (fields_beyond (option_map (λ text. text.now) fields.entry)) }
{
    let (one, rest) = cut(fields?, SPACE);
    match rest {
        None => Some(one),
        Some(_) => None,
    }
}

/// The only two fields.
pub(crate) fn two_fields(fields: Option<&[u8]>) -> Option<(&[u8], &[u8])>
    ensures { option_map (λ two. (two.0.now, two.1.now)) result ≡ two_of (fields_beyond (option_map (λ text. text.now) fields.entry)) }
{
    let (one, rest) = cut(fields?, SPACE);
    let other = one_field(rest)?;
    Some((one, other))
}

/// The first fork of these, and the forks behind it if there are some.
#[tactic(auto, unfolding(crate::specs::Script::forks_of))]
pub(crate) fn fork_of(text: &[u8]) -> Option<(u32, u32, Option<&[u8]>)>
    ensures forks { MatchOption result (forks_of (parts DOT text.now) ≡ None)
        (λ fork. forks_of (parts DOT text.now)
        ≡ fork_before (Some fork.0) (Some fork.1) (forks_of (parts_beyond DOT (option_map (λ rest. rest.now) fork.2)))) }
    ensures shorter { IfSome result (λ fork. IfSome fork.2 (λ rest. length rest.now < length text.now)) }
{
    let (ticket, rest) = cut(text, DOT);
    let (child, rest) = cut(rest?, DOT);
    let ticket = number_within(ticket, 1, u32::MAX)?;
    let child = number_within(child, 1, u32::MAX)?;
    Some((ticket, child, rest))
}
