//! The Gregorian calendar of the years 0 to 9999: its year 0 is that before the year 1.
ghost use Rattle.std.specs.Prelude.{◌≡◌, ◌-◌, ◌≤◌, pos, ◌+ℤ◌};
ghost use Rattle.std.specs.Int.{IsInRange};
ghost use Rattle.jiff_core.specs.Calendar as calendar;
ghost use Rattle.civil_time.specs.Scale as scale;

use jiff_core::civil::{self, Date};

/// The nanoseconds of a day.
pub(crate) const DAY_NANOS: i64 = 86_400_000_000_000;

/// The nanoseconds from 1970-01-01T00:00:00 UTC to 2000-01-01T12:00:00 UTC.
pub(crate) const SCALE_ZERO: i64 = 946_728_000_000_000_000;

/// The number of days of a year, 365 or 366.
pub fn days_in_year(year: u16) -> u16
    requires { year ≤ 9999 }
    ensures { result ≡ calendar.days_in_year (pos year) }
{
    civil::days_in_year(year as i16)
}

/// The number of days of a month.
pub(crate) fn days_in_month(year: u16, month: u8) -> u8
    requires { year ≤ 9999 }
    ensures value { result ≡ calendar.days_in_month (pos year) month }
    ensures bound { result ≤ 31 }
{
    civil::days_in_month(year as i16, month)
}

/// The number of a day from 1970-01-01, which is day 0.
pub(crate) fn day_number(year: u16, month: u8, day: u8) -> i32
    requires year { scale.IsInstantYear (pos year) }
    requires date { calendar.IsCivilDate (pos year) month day }
    ensures value { result ≡ calendar.days_from_civil (pos year) month day }
    ensures in_years { scale.IsInstantDay result }
{
    Date::constrain(year as i16, month, day).to_unix_epoch_day()
}

/// The same, of the day with this place in the year, from 1.
pub(crate) fn day_in_year(year: u16, day: u16) -> i32
    requires year { scale.IsInstantYear (pos year) }
    requires day { IsInRange 1 (calendar.days_in_year (pos year)) day }
    ensures value { result ≡ calendar.days_from_civil (pos year) 1 1 +ℤ pos (day - 1) }
    ensures in_years { scale.IsInstantDay result }
{
    day_number(year, 1, 1) + i32::from(day - 1)
}

/// When a day of the years 1957 to 2056 begins, in nanoseconds from 2000-01-01T12:00:00 UTC.
pub(crate) fn start_of_day(day: i32) -> i64
    requires { scale.IsInstantDay day }
    ensures value { result ≡ scale.start_of_day day }
    ensures in_years { scale.IsInstant result }
{
    i64::from(day) * DAY_NANOS - SCALE_ZERO
}
