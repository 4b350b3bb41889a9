//! What an element set gives, as enclosures.
ghost use Rattle.decimals.specs.Decimal.{value};
ghost use Rattle.exact.specs.Rational.{◌*ℚ◌, ◌/ℚ◌, ◌≤ℚ◌, zero_ℚ};
ghost use Rattle.fixed_iv.specs.Follows.{Encloses, EnclosesByPi};
ghost use Rattle.fixed_iv.specs.Place.{Place};
ghost use Rattle.sgp4_model.specs.Degrees.{radians};
ghost use Rattle.sgp4_model.specs.Numerals.{decimal, whole};
ghost use Rattle.sgp4_model.specs.Wgs72.{ke};
ghost use Rattle.sgp4_shape.specs.Covering.{unit_minutes};
ghost use Rattle.sgp4_motion.specs.Lines.{a_minute};
ghost use Rattle.sgp4_motion.specs.Numerals.{given_axis, given_eccentricity, given_inclination, given_motion};

use crate::given::{over, scaled};
use elements::Decimal;
use fixed_iv::Enc;

/// The eccentricity.
pub(crate) fn eccentricity<E: Enc>(ecc: Decimal) -> E
    requires least { zero_ℚ ≤ℚ value ecc }
    requires most { value ecc ≤ℚ decimal 2 1 }
    ensures { (h : Place) → Encloses E.Enc result h (value ecc) given_eccentricity }
{
    E::constant(scaled(ecc, 1, 1))
}

/// The inclination in radians.
pub(crate) fn inclination<E: Enc>(incl: Decimal) -> E
    requires least { zero_ℚ ≤ℚ value incl }
    requires most { value incl ≤ℚ whole 175 }
    ensures { EnclosesByPi E.Enc result (λ pi. radians pi (value incl)) given_inclination }
{
    E::constant(scaled(incl, 1, 180)).times(E::pi())
}

/// The mean motion as given, in radians per 16,384 minutes.
pub(crate) fn mean_motion<E: Enc>(motion: Decimal) -> E
    requires least { decimal 63 1 ≤ℚ value motion }
    requires most { value motion ≤ℚ whole 17 }
    ensures { EnclosesByPi E.Enc result (λ pi. unit_minutes 1 *ℚ a_minute pi (value motion)) given_motion }
{
    E::constant(scaled(motion, 1_024, 45)).times(E::pi())
}

/// The constant ke over the mean motion as given: a semimajor axis to the power 3/2. The ratio is 720 ke.
pub(crate) fn axis_power<E: Enc>(motion: Decimal) -> E
    requires least { decimal 63 1 ≤ℚ value motion }
    requires most { value motion ≤ℚ whole 17 }
    ensures { EnclosesByPi E.Enc result (λ pi. ke /ℚ a_minute pi (value motion)) given_axis }
{
    E::constant(over(6_693_022_449, 125_000_000, motion)).divided(E::pi())
}
