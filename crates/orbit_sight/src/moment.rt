//! The time of an instant.
ghost use Rattle.std.specs.Prelude.{◌≡◌, ◌<◌, ◌^◌, ◌-ℤ◌, unsigned_abs};
ghost use Rattle.fixed_iv.specs.Holds.{IsTightest};
ghost use Rattle.orbit_sight.specs.Moment.{units_from};

use elements::Instant;
use fixed_iv::Iv;

/// A unit of time of 16,384 minutes, in nanoseconds.
const UNIT: i128 = 983_040_000_000_000;

/// An instant in units of 16,384 minutes from an epoch.
pub(crate) fn time_from(epoch: Instant, at: Instant) -> Iv
    ensures { IsTightest (λ x. x ≡ units_from epoch at) result }
{
    Iv::from_ratio(i128::from(nanos_from(epoch, at)), UNIT)
}

/// An instant in nanoseconds from an epoch.
pub(crate) fn nanos_from(epoch: Instant, at: Instant) -> i64
    ensures value { result ≡ at -ℤ epoch }
    ensures size { unsigned_abs result < 2 ^ 62 }
{
    at.nanos() - epoch.nanos()
}
