//! The form of a text that writes an instant.
ghost use Rattle.std.specs.Prelude.{◌≡◌, ◌≤◌, drop};
ghost use Rattle.civil_time.specs.Utc as spec;

use crate::columns::{all_digits, are_digits, has_mark};

/// The text without a `Z` at its end.
#[tactic(auto, unfolding(crate::specs::Utc::without_z))]
pub(crate) fn without_z(text: &[u8]) -> &[u8]
    ensures { result.now ≡ spec.without_z text.now }
{
    match text {
        [front @ .., b'Z'] => front,
        _ => text,
    }
}

/// Whether the date is written by month and day, and not by the day of the year.
#[tactic(auto, unfolding(crate::specs::Utc::has_month))]
pub(crate) fn has_month(text: &[u8]) -> bool
    ensures { result ≡ spec.has_month text.now }
{
    has_mark(text, 7, b'-')
}

/// How many columns the date has.
#[tactic(auto, unfolding(crate::specs::Utc::date_width))]
pub(crate) fn date_width(text: &[u8]) -> usize
    ensures value { result ≡ spec.date_width text.now }
    ensures bound { result ≤ 10 }
{
    if has_month(text) { 10 } else { 8 }
}

/// Whether a date, a clock and decimals, where wanted, make up the text.
#[tactic(auto, unfolding(crate::specs::Utc::is_form))]
pub(crate) fn is_form(text: &[u8]) -> bool
    ensures { result ≡ spec.is_form text.now }
{
    is_date_form(text)
        && is_clock_form(text, date_width(text))
        && is_decimals_form(decimals_part(text))
}

/// Whether the text begins with `YYYY-MM-DD` or `YYYY-DDD`.
#[tactic(auto, unfolding(crate::specs::Utc::is_date_form))]
fn is_date_form(text: &[u8]) -> bool
    ensures { result ≡ spec.is_date_form text.now }
{
    if !are_digits(text, 0, 4) || !has_mark(text, 4, b'-') {
        return false;
    }
    if has_month(text) {
        are_digits(text, 5, 2) && are_digits(text, 8, 2)
    } else {
        are_digits(text, 5, 3)
    }
}

/// Whether the text has `Thh:mm:ss` from this column on.
#[tactic(auto, unfolding(crate::specs::Utc::is_clock_form))]
fn is_clock_form(text: &[u8], from: usize) -> bool
    requires { from ≤ 10 }
    ensures { result ≡ spec.is_clock_form from text.now }
{
    has_mark(text, from, b'T')
        && are_digits(text, from + 1, 2)
        && has_mark(text, from + 3, b':')
        && are_digits(text, from + 4, 2)
        && has_mark(text, from + 6, b':')
        && are_digits(text, from + 7, 2)
}

/// What follows the date and the clock.
pub(crate) fn decimals_part(text: &[u8]) -> &[u8]
    ensures { result.now ≡ spec.decimals_part text.now }
{
    let from = date_width(text) + 9;
    if from < text.len() {
        &text[from..]
    } else {
        &[]
    }
}

/// Whether nothing stands there, or a point and one to nine digits.
#[tactic(auto, unfolding(crate::specs::Utc::is_decimals_form))]
fn is_decimals_form(part: &[u8]) -> bool
    ensures { result ≡ spec.is_decimals_form part.now }
{
    part.is_empty()
        || has_mark(part, 0, b'.') && part.len() >= 2 && part.len() <= 10 && all_digits(&part[1..])
}
