//! Radii about the guess, in units of 2^-48, in whole numbers.
ghost use Rattle.std.specs.Prelude.{◌≡◌, ◌+◌, ◌-◌, ◌*◌, ◌/◌, ◌^◌, ◌<◌, ◌≤◌};
ghost use Rattle.kepler_enc.specs.Radius.{IsAboutZero, IsNextAbove};

use crate::sizes::ONE;
use fixed_iv::Iv;

/// Larger radii are taken for unbounded.
const FAR: u128 = 1 << 62;

/// How far a root lies from the guess at most. `residual` is the size of what the guess leaves of the equation, and
/// `sum` that of `ax` and `ay` together.
pub(crate) fn ball_radius(residual: u64, sum: u64) -> u128
    requires { sum < 2 ^ 48 }
    ensures { IsNextAbove ((residual + 1) * 2 ^ 48) (2 ^ 48 - sum) result }
{
    next_above((u128::from(residual) + 1) * u128::from(ONE), ONE - sum)
}

/// How far a root lies from where a step of Newton's rule leads, at most, if it lies within `radius` of the guess.
pub(crate) fn rest_radius(radius: u64, sum: u64) -> u128
    requires radius { radius ≤ 2 ^ 48 }
    requires sum { sum < 2 ^ 48 }
    ensures { IsNextAbove ((sum * (radius * radius / 2 ^ 49 + 1) / 2 ^ 48 + 2) * 2 ^ 48) (2 ^ 48 - sum) result }
{
    let half_square = u128::from(radius) * u128::from(radius) / (1 << 49) + 1;
    let bend = u128::from(sum) * half_square / u128::from(ONE) + 2;
    next_above(bend * u128::from(ONE), ONE - sum)
}

/// The least whole number above `n / d`.
fn next_above(n: u128, d: u64) -> u128
    requires divisor { 0 < d }
    requires room { n < 2 ^ 127 }
    ensures { IsNextAbove n d result }
{
    n / u128::from(d) + 1
}

/// The numbers up to so many units from 0.
pub(crate) fn about_zero(radius: u128) -> Iv
    ensures { IsAboutZero radius result }
{
    if radius < FAR {
        let end = radius as i64;
        Iv::from_ends(-end, end)
    } else {
        Iv::WHOLE
    }
}
