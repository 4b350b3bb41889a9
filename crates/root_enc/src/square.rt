//! Intervals of square roots.
ghost use Rattle.std.specs.Prelude.{◌≡◌, ◌-◌, ◌+◌, ◌*◌, ◌<◌, ◌≤◌, ◌≤ℤ◌, ◌<ℤ◌, pos};
ghost use Rattle.fixed_iv.specs.Ends.{no_high};
ghost use Rattle.fixed_iv.specs.Holds.{IsBounded, IsWhole};
ghost use Rattle.root_enc.specs.Ends.{AreSquareRootEnds, IsHighSquareRoot, IsLowSquareRoot, IsWholeRoot};
ghost use Rattle.root_enc.specs.Roots.{AreNearSquareRoots, HoldSquareRoots};

use crate::whole::whole_root;
use fixed_iv::Iv;

/// Parts of 2^-96 in a unit of 2^-48.
const UNIT: u128 = 1 << 48;

/// The tolerance of a root's square, 2^-60, in parts of 2^-96.
const TOLERANCE: u128 = 1 << 36;

/// An interval that holds every square root of every number that `x` holds. Numbers below 0 have none; if `x` holds no
/// others, both ends are unbounded.
pub fn sqrt(x: Iv) -> Iv
    ensures holds { HoldSquareRoots x result }
    ensures near { IsBounded x → pos 68719476736 ≤ℤ x.lo → AreNearSquareRoots x result }
    ensures ends { pos 0 ≤ℤ x.hi → AreSquareRootEnds x result }
    ensures none { x.hi <ℤ pos 0 → IsWhole result }
{
    if x.hi < 0 {
        return Iv::WHOLE;
    }
    Iv {
        lo: low_root(x.lo),
        hi: high_root(x.hi),
    }
}

/// The lower end of the square roots of the numbers from `end` on.
fn low_root(end: i64) -> i64
    ensures size { result ≤ℤ pos 72057594037927936 }
    ensures root { IsLowSquareRoot end result }
{
    if end <= 0 {
        0
    } else {
        root_below(end.unsigned_abs()) as i64
    }
}

/// The upper end of the square roots of the numbers up to `end`.
fn high_root(end: i64) -> i64
    requires { pos 0 ≤ℤ end }
    ensures { IsHighSquareRoot end result }
{
    if end == i64::MAX {
        i64::MAX
    } else {
        root_above(end.unsigned_abs()) as i64 + 1
    }
}

/// The whole units in the square root of so many units, less the tolerance.
fn root_below(end: u64) -> u64
    requires sign { 0 < end }
    requires size { end < 9223372036854775808 }
    ensures size { result < 72057594037927936 }
    ensures root { IsWholeRoot (end * 281474976710656 - 68719476736) result }
{
    whole_root(u128::from(end) * UNIT - TOLERANCE)
}

/// The whole units in the square root of so many units and the tolerance.
fn root_above(end: u64) -> u64
    requires { end < 9223372036854775808 }
    ensures size { result < 72057594037927936 }
    ensures root { IsWholeRoot (end * 281474976710656 + 68719476736) result }
{
    whole_root(u128::from(end) * UNIT + TOLERANCE)
}
