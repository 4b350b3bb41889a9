//! The fields of element lines: their forms, and the values that they write.
ghost use Rattle.std.specs.Prelude.{◌≡◌, ◌^◌, ◌<◌, ◌≤◌, ◌==◌, length, position, IfSome, pos};
ghost use Rattle.civil_time.specs.Scale.{IsInstantYear};
ghost use Rattle.decimals.specs.Normal as normal;
ghost use Rattle.tle_read.specs.Fields as spec;

use crate::columns::{byte_in, columns, without_spaces};
use crate::digits::{all_digits, number};
use crate::number::Fixed;
use decimals::Decimal;

/// The letters that stand for ten thousands in a catalogue number: all but I and O.
const LETTERS: &str = "ABCDEFGHJKLMNPQRSTUVWXYZ";

/// The number that digits write after spaces, if there are any.
#[tactic(auto, unfolding(crate::specs::Fields::spaced_number))]
fn spaced_number(text: &[u8]) -> Option<u32>
    requires { length text.now ≤ 5 }
    ensures value { result ≡ spec.spaced_number text.now }
    ensures bound { IfSome result (λ number. number < 10 ^ length text.now) }
{
    let digits = without_spaces(text);
    if !all_digits(digits) || digits.is_empty() {
        return None;
    }
    Some(number(digits) as u32)
}

/// The place of a letter among those that stand for ten thousands.
fn letter_place(byte: u8) -> Option<usize>
    ensures value { result ≡ position (λ letter. letter == byte) spec.letters }
    ensures bound { IfSome result (λ place. place < 24) }
{
    LETTERS.as_bytes().iter().position(|letter| *letter == byte)
}

/// The number that a letter stands for: 10 for A, up to 33 for Z.
#[tactic(auto, unfolding(crate::specs::Fields::letter_value))]
fn letter_value(byte: u8) -> Option<u32>
    ensures value { result ≡ spec.letter_value byte }
    ensures bound { IfSome result (λ number. number < 34) }
{
    let place = letter_place(byte)?;
    Some(place as u32 + 10)
}

/// The number of a letter and four digits.
#[tactic(auto, unfolding(crate::specs::Fields::lettered_number))]
fn lettered_number(text: &[u8]) -> Option<u32>
    requires { length text.now ≡ 5 }
    ensures { result ≡ spec.lettered_number text.now }
{
    let digits = columns(text, 2, 5);
    if !all_digits(digits) {
        return None;
    }
    let letter = letter_value(byte_in(1, text))?;
    Some(letter * 10_000 + number(digits) as u32)
}

/// The catalogue number in five columns: digits after spaces, or a letter and four digits.
#[tactic(auto, unfolding(crate::specs::Fields::catalogue_number))]
pub(crate) fn catalogue_number(text: &[u8]) -> Option<u32>
    requires { length text.now ≡ 5 }
    ensures { result ≡ spec.catalogue_number text.now }
{
    match spaced_number(text) {
        Some(number) => Some(number),
        None => lettered_number(text),
    }
}

/// The year in two columns.
#[tactic(auto, unfolding(crate::specs::Fields::year_of))]
pub(crate) fn year_of(text: &[u8]) -> Option<u16>
    requires { length text.now ≡ 2 }
    ensures value { result ≡ spec.year_of text.now }
    ensures in_years { IfSome result (λ year. IsInstantYear (pos year)) }
{
    let short = spaced_number(text)? as u16;
    Some(if short < 57 {
        2000 + short
    } else {
        1900 + short
    })
}

/// The eccentricity in seven columns, all of them after a point that is left out.
#[tactic(auto, unfolding(crate::specs::Fields::eccentricity_of))]
pub(crate) fn eccentricity_of(text: &[u8]) -> Option<Fixed>
    requires { length text.now ≡ 7 }
    ensures value { result ≡ spec.eccentricity_of text.now }
    ensures below_one { IfSome result spec.IsBelowOne }
{
    let digits = without_spaces(text);
    if !all_digits(digits) {
        return None;
    }
    Some(Fixed::make(number(digits), 7))
}

/// Whether the byte is a sign: a space and a plus are the plus.
fn is_sign(byte: u8) -> bool
    ensures { result ≡ spec.is_sign byte }
{
    byte == b' ' || byte == b'+' || byte == b'-'
}

/// The decimal of this sign and size.
fn signed(minus: bool, size: u64, places: u8) -> Decimal
    requires size { size < 10 ^ 18 }
    requires places { places ≤ 18 }
    ensures { result ≡ normal.normal (normal.signed minus size) places }
{
    let size = size as i64;
    Decimal::of_scaled(if minus { -size } else { size }, places)
}

/// 0.ddddd times ten to a power of one digit, where both have a sign.
#[tactic(auto, using(crate::proofs::NumberLemmas::power_fits))]
fn power_value(minus: bool, digits: u64, power_minus: bool, power: u8) -> Decimal
    requires digits { digits < 10 ^ 5 }
    requires power { power ≤ 9 }
    ensures { result ≡ spec.power_value minus digits power_minus power }
{
    if power_minus {
        signed(minus, digits, 5 + power)
    } else {
        signed(minus, digits * 10u64.pow(u32::from(power)), 5)
    }
}

/// The drag term in eight columns.
#[tactic(auto, unfolding(crate::specs::Fields::drag_of))]
pub(crate) fn drag_of(text: &[u8]) -> Option<Decimal>
    requires { length text.now ≡ 8 }
    ensures { result ≡ spec.drag_of text.now }
{
    let digits = columns(text, 2, 6);
    let power = byte_in(8, text);
    if !is_sign(byte_in(1, text))
        || !all_digits(digits)
        || !is_sign(byte_in(7, text))
        || !power.is_ascii_digit()
    {
        return None;
    }
    let minus = byte_in(1, text) == b'-';
    let power_minus = byte_in(7, text) == b'-';
    Some(power_value(minus, number(digits), power_minus, power - b'0'))
}

/// The ephemeris type: a digit, or a space for 0.
pub(crate) fn type_of(byte: u8) -> Option<u8>
    ensures { result ≡ spec.type_of byte }
{
    match byte {
        b' ' => Some(0),
        b'0'..=b'9' => Some(byte - b'0'),
        _ => None,
    }
}
