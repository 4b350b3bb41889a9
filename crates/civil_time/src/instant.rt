//! The instant, from its nanoseconds and from the place in a year.
ghost use Rattle.std.specs.Prelude.{◌≡◌, ◌↔◌, ◌*◌, ◌<◌, pos, ◌+ℤ◌, IsTrue};

use crate::calendar::{day_number, start_of_day};
use std::marker::Model;

/// The nanoseconds of 1957-01-01T00:00:00 UTC.
const FIRST: i64 = -1_356_955_200_000_000_000;

/// The nanoseconds of the last instant before 2057-01-01T00:00:00 UTC.
const LAST: i64 = 1_798_804_799_999_999_999;

/// An instant of the years 1957 to 2056, as a count of nanoseconds from 2000-01-01T12:00:00 UTC on days of
/// 86,400 seconds. Instants are ordered as their counts.
#[derive(Clone, Copy, Debug, PartialEq, Eq, PartialOrd, Ord)]
pub struct Instant {
    nanos: i64,
}

impl Model for Instant {
    ghost use Rattle.std.specs.Prelude.{ℤ};
    ghost use Rattle.civil_time.specs.Scale.{IsInstant};

    ghost Value = { ℤ };

    ghost view = { λ instant. instant.nanos };

    ghost invariant = { λ instant. IsInstant instant.nanos };

    ghost inverse = { λ nanos. record { nanos = nanos } };
}

impl Instant {
    ghost use Rattle.civil_time.specs.Scale.{IsInstant, IsInstantYear, day_nanos, start_of_year};
    ghost use Rattle.jiff_core.specs.Calendar.{days_in_year};

    /// Whether so many nanoseconds from 2000-01-01T12:00:00 UTC lie in the years 1957 to 2056.
    pub fn is_in_years(nanos: i64) -> bool
        ensures { IsTrue result ↔ IsInstant nanos }
    {
        nanos >= FIRST && nanos <= LAST
    }

    /// The instant so many nanoseconds from 2000-01-01T12:00:00 UTC.
    pub fn from_nanos(nanos: i64) -> Instant
        requires in_years { IsInstant nanos }
        ensures { result ≡ nanos }
    {
        Instant { nanos }
    }

    /// The instant so many nanoseconds after the beginning of a year.
    pub fn of_year_day(year: u16, nanos_of_year: u64) -> Instant
        requires year { IsInstantYear (pos year) }
        requires within { nanos_of_year < days_in_year (pos year) * day_nanos }
        ensures { result ≡ start_of_year (pos year) +ℤ pos nanos_of_year }
    {
        Instant {
            nanos: start_of_day(day_number(year, 1, 1)) + nanos_of_year as i64,
        }
    }

    /// The nanoseconds from 2000-01-01T12:00:00 UTC.
    pub fn nanos(self) -> i64
        ensures value { result ≡ self }
        ensures in_years { IsInstant result }
    {
        self.nanos
    }
}
