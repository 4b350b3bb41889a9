//! Given numbers.
ghost use Rattle.std.specs.Prelude.{◌<ℤ◌, pos, unsigned_abs};
ghost use Rattle.exact.specs.Rational.{ratio};
ghost use Rattle.fixed_iv.specs.Follows.{Encloses};
ghost use Rattle.fixed_iv.specs.Place.{Place};
ghost use Rattle.sgp4_init.specs.Numerals.{of_ratio};

use fixed_iv::{Enc, Iv};

/// The number `num / den`.
pub(crate) fn number<E: Enc>(num: i128, den: i128) -> E
    requires { pos 0 <ℤ den }
    ensures { (h : Place) → Encloses E.Enc result h (ratio num (unsigned_abs den)) (of_ratio num den) }
{
    E::constant(Iv::from_ratio(num, den))
}
