//! Sizes of bounds, and the guard on them.
ghost use Rattle.std.specs.Prelude.{◌≡◌, MatchOption, pos};
ghost use Rattle.fixed_iv.specs.Extent.{size};
ghost use Rattle.kepler_enc.specs.Guard.{IsGuardedSum, IsUnguarded};

use fixed_iv::Iv;

/// Units of 2^-48 in 1.
pub(crate) const ONE: u64 = 1 << 48;

/// The number 1.
pub(crate) fn one() -> Iv
    ensures low { result.lo ≡ pos 281474976710656 }
    ensures high { result.hi ≡ pos 281474976710656 }
{
    let units = ONE as i64;
    Iv::from_ends(units, units)
}

/// The largest size of an end, in units of 2^-48.
pub(crate) fn largest(bounds: Iv) -> u64
    ensures { result ≡ size bounds }
{
    let (low, high) = bounds.ends();
    low.unsigned_abs().max(high.unsigned_abs())
}

/// The sum of the largest sizes of an end, in units of 2^-48, where it is below 1.
pub(crate) fn guarded_sum(ax: Iv, ay: Iv) -> Option<u64>
    ensures { MatchOption result (IsUnguarded ax ay) (λ sum. IsGuardedSum ax ay sum) }
{
    let sum = u128::from(largest(ax)) + u128::from(largest(ay));
    if sum < u128::from(ONE) {
        Some(sum as u64)
    } else {
        None
    }
}
