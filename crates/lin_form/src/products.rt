//! Ranges of products.
ghost use Rattle.exact.specs.Rational.{ℚ, ◌*ℚ◌};
ghost use Rattle.fixed_iv.specs.Holds.{Holds};
ghost use Rattle.fixed_iv.specs.Place.{Place};
ghost use Rattle.lin_form.specs.Covered.{IsCovered};

use crate::Lin;
use crate::bands::is_zero;
use fixed_iv::Iv;

/// A quarter, in units of 2^-48.
const QUARTER: i64 = 1 << 46;

/// An interval of the products. Where slopes are small, and not both 0, the band of the product tells as much as the product of
/// the ranges does.
pub(crate) fn product_range(a: Lin, b: Lin) -> Iv
    ensures { (h : Place) (x y : ℚ) → IsCovered a h x → IsCovered b h y → Holds result (x *ℚ y) }
{
    let steady = is_zero(a.slope) && is_zero(b.slope);
    if !steady && is_gentle(a.slope) && is_gentle(b.slope) {
        return Iv::WHOLE;
    }
    a.range * b.range
}

/// Whether a slope is below a quarter in size.
fn is_gentle(slope: Iv) -> bool {
    slope.lo > -QUARTER && slope.hi < QUARTER
}
