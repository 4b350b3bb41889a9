//! Numbers in fixed point.
ghost use Rattle.std.specs.Prelude.{true, ◌≡◌, ◌+◌, ◌-◌, ◌^◌, ◌<◌, ◌≤◌, ◌++◌, length, position, IfSome};
ghost use Rattle.std.specs.Char.{is_ascii_digit};
ghost use Rattle.std.specs.List.{list_all, before_first, after_first};
ghost use Rattle.std.specs.Str.Parse.{digits_value};
ghost use Rattle.tle_read.specs.Fields as spec;

use crate::columns::{without_spaces, without_spaces_after};
use crate::digits::{all_digits, number, number_after};
use crate::number::Fixed;

/// The number that digits with at most one point among them write, between spaces.
#[tactic(auto, unfolding(crate::specs::Fields::fixed_point))]
pub(crate) fn fixed_point(text: &[u8]) -> Option<Fixed>
    requires { length text.now ≤ 12 }
    ensures { result ≡ spec.fixed_point text.now }
{
    let (whole, fraction) = parts(without_spaces_after(without_spaces(text)));
    if !all_digits(whole) || !all_digits(fraction) || whole.len() + fraction.len() == 0 {
        return None;
    }
    Some(Fixed::make(joined(whole, fraction), fraction.len() as u8))
}

/// The place of the first point of a text.
fn point(text: &[u8]) -> Option<usize>
    ensures value { result ≡ position spec.is_point text.now }
    ensures bound { IfSome result (λ place. place < length text.now) }
{
    text.iter().position(|byte| *byte == b'.')
}

/// What stands before the first point of a text, and what stands after it.
#[tactic(auto, using(crate::proofs::PointLemmas::before_point, crate::proofs::PointLemmas::after_point, crate::proofs::PointLemmas::before_no_point, crate::proofs::PointLemmas::after_no_point))]
fn parts(text: &[u8]) -> (&[u8], &[u8])
    ensures whole { result.0.now ≡ before_first spec.is_point text.now }
    ensures fraction { result.1.now ≡ after_first spec.is_point text.now }
    ensures len { length result.0.now + length result.1.now ≤ length text.now }
    ensures point { length result.1.now ≤ length text.now - 1 }
{
    match point(text) {
        Some(at) => (&text[..at], &text[at + 1..]),
        None => (text, &[]),
    }
}

/// The number that the digits before and after a point write as one whole number.
fn joined(whole: &[u8], fraction: &[u8]) -> u64
    requires whole { list_all is_ascii_digit whole.now ≡ true }
    requires fraction { list_all is_ascii_digit fraction.now ≡ true }
    requires few { length whole.now + length fraction.now ≤ 12 }
    ensures value { result ≡ digits_value 10 (whole.now ++ fraction.now) }
    ensures bound { result < 10 ^ 12 }
{
    number_after(number(whole), fraction)
}
