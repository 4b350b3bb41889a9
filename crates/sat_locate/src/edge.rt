//! Bounds in millimetres.
ghost use Rattle.std.specs.Prelude.{◌<◌, ◌^◌, ◌≤ℤ◌, ◌<ℤ◌, ◌*ℤ◌, ◌+ℤ◌, ◌-ℤ◌, pos, unsigned_abs};
ghost use Rattle.exact.specs.Rational.{ℚ};
ghost use Rattle.fixed_iv.specs.Holds.{Holds, IsBounded};
ghost use Rattle.sat_locate.specs.Edge.{IsBetween};

use fixed_iv::Iv;

/// The bounds of a coordinate, in millimetres.
#[derive(Clone, Copy, Debug, PartialEq, Eq)]
pub struct Edge {
    pub low: i64,
    pub high: i64,
}

/// The Earth's equatorial radius of WGS-72, in millimetres.
const RADIUS: i128 = 6_378_135_000;

/// Units of 2^-48 in 1.
const ONE: i128 = 1 << 48;

/// The narrowest bounds in whole millimetres of the numbers that an interval holds, which are in Earth radii.
pub fn edge_of(bounds: Iv) -> Edge
    requires { IsBounded bounds }
    ensures holds { (x : ℚ) → Holds bounds x → IsBetween result.low result.high x }
    ensures low { (bounds.lo *ℤ pos 6378135000) <ℤ ((result.low +ℤ pos 1) *ℤ pos 281474976710656) }
    ensures high { ((result.high -ℤ pos 1) *ℤ pos 281474976710656) <ℤ (bounds.hi *ℤ pos 6378135000) }
{
    let (low, high) = bounds.ends();
    Edge {
        low: millimetres_below(low),
        high: millimetres_above(high),
    }
}

/// Whole millimetres in so many units of 2^-48 Earth radii, rounded down.
fn millimetres_below(units: i64) -> i64
    ensures below { (result *ℤ pos 281474976710656) ≤ℤ (units *ℤ pos 6378135000) }
    ensures least { (units *ℤ pos 6378135000) <ℤ ((result +ℤ pos 1) *ℤ pos 281474976710656) }
    ensures size { unsigned_abs result < 2 ^ 62 }
{
    (i128::from(units) * RADIUS).div_euclid(ONE) as i64
}

/// Whole millimetres in so many units of 2^-48 Earth radii, rounded up.
fn millimetres_above(units: i64) -> i64
    requires { unsigned_abs units < 2 ^ 63 }
    ensures above { (units *ℤ pos 6378135000) ≤ℤ (result *ℤ pos 281474976710656) }
    ensures least { ((result -ℤ pos 1) *ℤ pos 281474976710656) <ℤ (units *ℤ pos 6378135000) }
{
    -millimetres_below(-units)
}
