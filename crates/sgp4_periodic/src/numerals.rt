//! The number 1.
ghost use Rattle.exact.specs.Rational.{one_ℚ};
ghost use Rattle.fixed_iv.specs.Arithmetic.{numerals};
ghost use Rattle.fixed_iv.specs.Follows.{Encloses};
ghost use Rattle.fixed_iv.specs.Place.{Place};

use fixed_iv::{Enc, Iv};

/// The number 1.
pub(crate) fn one<E: Enc>() -> E
    ensures { (h : Place) → Encloses E.Enc result h one_ℚ (numerals.whole 1) }
{
    E::constant(Iv::from_ratio(1, 1))
}
