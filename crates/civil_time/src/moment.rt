//! The day and the time of day that a text of the form writes, and its instant.
ghost use Rattle.std.specs.Prelude.{true, ◌≡◌, ◌*◌, ◌+◌, ◌≤◌, ◌<◌, ◌^◌, pos, length};
ghost use Rattle.civil_time.specs.Scale as scale;
ghost use Rattle.civil_time.specs.Utc as spec;

use crate::calendar::{day_in_year, day_number, days_in_month, days_in_year, start_of_day};
use crate::columns::{number, number_at};
use crate::form::{date_width, decimals_part, has_month};
use crate::instant::Instant;

/// Whether the calendar has the day.
#[tactic(auto, unfolding(crate::specs::Utc::is_date_form, crate::specs::Utc::is_day))]
pub(crate) fn is_day(text: &[u8]) -> bool
    requires { spec.is_date_form text.now ≡ true }
    ensures { result ≡ spec.is_day text.now }
{
    let year = year_at(text);
    if has_month(text) {
        let month = number_at(text, 5, 2) as u8;
        let day = number_at(text, 8, 2) as u8;
        1 <= month && month <= 12 && 1 <= day && day <= days_in_month(year, month)
    } else {
        let day = number_at(text, 5, 3) as u16;
        1 <= day && day <= days_in_year(year)
    }
}

/// The year.
#[tactic(auto, unfolding(crate::specs::Utc::is_date_form))]
pub(crate) fn year_at(text: &[u8]) -> u16
    requires { spec.is_date_form text.now ≡ true }
    ensures value { result ≡ spec.year_at text.now }
    ensures bound { result ≤ 9999 }
{
    number_at(text, 0, 4) as u16
}

/// The number of the day from 1970-01-01.
#[tactic(auto, unfolding(crate::specs::Utc::is_date_form, crate::specs::Utc::is_day, crate::specs::Utc::day_at))]
fn day_at(text: &[u8]) -> i32
    requires form { spec.is_date_form text.now ≡ true }
    requires day { spec.is_day text.now ≡ true }
    requires year { scale.IsInstantYear (pos (spec.year_at text.now)) }
    ensures value { result ≡ spec.day_at text.now }
    ensures in_years { scale.IsInstantDay result }
{
    let year = year_at(text);
    if has_month(text) {
        day_number(
            year,
            number_at(text, 5, 2) as u8,
            number_at(text, 8, 2) as u8,
        )
    } else {
        day_in_year(year, number_at(text, 5, 3) as u16)
    }
}

/// Whether a clock shows the time of day.
#[tactic(auto, unfolding(crate::specs::Utc::is_clock_form, crate::specs::Utc::is_clock))]
pub(crate) fn is_clock(text: &[u8], from: usize) -> bool
    requires near { from ≤ 10 }
    requires form { spec.is_clock_form from text.now ≡ true }
    ensures { result ≡ spec.is_clock from text.now }
{
    number_at(text, from + 1, 2) < 24
        && number_at(text, from + 4, 2) < 60
        && number_at(text, from + 7, 2) < 60
}

/// The seconds since midnight.
#[tactic(auto, unfolding(crate::specs::Utc::is_clock_form, crate::specs::Utc::is_clock, crate::specs::Utc::seconds_at))]
fn seconds_at(text: &[u8], from: usize) -> u32
    requires near { from ≤ 10 }
    requires form { spec.is_clock_form from text.now ≡ true }
    requires clock { spec.is_clock from text.now ≡ true }
    ensures value { result ≡ spec.seconds_at from text.now }
    ensures bound { result < 86_400 }
{
    number_at(text, from + 1, 2) * 3600
        + number_at(text, from + 4, 2) * 60
        + number_at(text, from + 7, 2)
}

/// The nanoseconds of the decimals after the point.
#[tactic(auto, unfolding(crate::specs::Utc::is_decimals_form, crate::specs::Utc::decimals_at))]
fn decimals_at(part: &[u8]) -> u32
    requires { spec.is_decimals_form part.now ≡ true }
    ensures value { result ≡ spec.decimals_at part.now }
    ensures bound { result < 1_000_000_000 }
{
    if part.is_empty() {
        return 0;
    }
    number(&part[1..]) * 10u32.pow(10 - part.len() as u32)
}

/// The instant of a text that has the form, a day of the calendar and a time of day.
#[tactic(auto, unfolding(crate::specs::Utc::is_form, crate::specs::Utc::moment_at))]
pub(crate) fn moment_at(text: &[u8]) -> Instant
    requires form { spec.is_form text.now ≡ true }
    requires day { spec.is_day text.now ≡ true }
    requires clock { spec.is_clock (spec.date_width text.now) text.now ≡ true }
    requires year { scale.IsInstantYear (pos (spec.year_at text.now)) }
    ensures { result ≡ spec.moment_at text.now }
{
    let seconds = seconds_at(text, date_width(text));
    let since = i64::from(seconds) * 1_000_000_000 + i64::from(decimals_at(decimals_part(text)));
    Instant::from_nanos(start_of_day(day_at(text)) + since)
}
