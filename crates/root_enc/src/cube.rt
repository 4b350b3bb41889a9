//! Intervals of cube roots of squares.
ghost use Rattle.std.specs.Prelude.{◌≡◌, ◌-◌, ◌+◌, ◌*◌, ◌<◌, ◌≤◌, ◌≤ℤ◌, ◌<ℤ◌, pos};
ghost use Rattle.fixed_iv.specs.Ends.{no_high};
ghost use Rattle.fixed_iv.specs.Holds.{IsBounded, IsWhole};
ghost use Rattle.root_enc.specs.Ends.{AreCubeRootEnds, IsHighCubeRoot, IsLowCubeRoot, IsWholeCubeRoot};
ghost use Rattle.root_enc.specs.Roots.{AreNearCubeRoots, HoldCubeRoots};

use crate::whole::whole_cube_root;
use fixed_iv::Iv;

/// The tolerance of a root's cube, 2^-60, in parts of 2^-80, which the upper limb counts.
const TOLERANCE: u128 = 1 << 20;

/// Squares of a unit of 2^-48 in a part of 2^-80.
const SQUARES: u128 = 1 << 16;

/// Parts of 2^-144, which the lower limb counts, in the square of a unit.
const PARTS: u128 = 1 << 48;

/// An interval that holds every cube root of the square of every number that `x` holds. A number that is 0 or less
/// has none; where all of `x` is, the answer is unbounded.
pub fn cbrt2(x: Iv) -> Iv
    ensures holds { HoldCubeRoots x result }
    ensures near { IsBounded x → pos 4398046511104 ≤ℤ x.lo → AreNearCubeRoots x result }
    ensures ends { pos 0 <ℤ x.hi → AreCubeRootEnds x result }
    ensures none { x.hi ≤ℤ pos 0 → IsWhole result }
{
    if x.hi <= 0 {
        return Iv::WHOLE;
    }
    Iv {
        lo: low_root(x.lo),
        hi: high_root(x.hi),
    }
}

/// The lower end of the cube roots of the squares of the positive numbers from `end` on.
fn low_root(end: i64) -> i64
    ensures size { result ≤ℤ pos 576460752303423488 }
    ensures root { IsLowCubeRoot end result }
{
    if end <= 0 {
        0
    } else {
        root_below(end.unsigned_abs()) as i64
    }
}

/// The upper end of the cube roots of the squares of the positive numbers up to `end`.
fn high_root(end: i64) -> i64
    requires { pos 0 <ℤ end }
    ensures { IsHighCubeRoot end result }
{
    if end == i64::MAX {
        i64::MAX
    } else {
        root_above(end.unsigned_abs()) as i64 + 1
    }
}

/// The whole units in the cube root of the square of so many units, less the tolerance; 0 where that is below 0.
fn root_below(end: u64) -> u64
    requires { end < 9223372036854775808 }
    ensures size { result < 576460752303423488 }
    ensures root { IsWholeCubeRoot (end * end * 281474976710656 - 19342813113834066795298816) result }
{
    let (high, low) = scaled_square(end);
    if high < TOLERANCE {
        0
    } else {
        whole_cube_root(high - TOLERANCE, low)
    }
}

/// The whole units in the cube root of the square of so many units and the tolerance.
fn root_above(end: u64) -> u64
    requires { end < 9223372036854775808 }
    ensures size { result < 576460752303423488 }
    ensures root { IsWholeCubeRoot (end * end * 281474976710656 + 19342813113834066795298816) result }
{
    let (high, low) = scaled_square(end);
    whole_cube_root(high + TOLERANCE, low)
}

/// The square of so many units in parts of 2^-144, as two limbs.
fn scaled_square(end: u64) -> (u128, u64)
    requires { end < 9223372036854775808 }
    ensures size { result.0 < 1298074214633706907132624082305024 }
    ensures square { result.0 * 18446744073709551616 + result.1 ≡ end * end * 281474976710656 }
{
    let square = u128::from(end) * u128::from(end);
    (square / SQUARES, (square % SQUARES * PARTS) as u64)
}
