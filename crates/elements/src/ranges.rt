//! Tests of the ranges of an element set.
ghost use Rattle.std.specs.Prelude.{◌≡◌, ◌↔◌, pos, neg_ℤ, IsTrue};
ghost use Rattle.decimals.specs.Decimal.{value};
ghost use Rattle.elements.specs.Elements.{IsFromTo};
ghost use Rattle.elements.specs.Ranges as spec;
ghost use Rattle.exact.specs.Rational.{one_ℚ, zero_ℚ, ◌<ℚ◌, ◌≤ℚ◌};

use decimals::Decimal;

/// Whether a mean motion is above 0.
#[tactic(auto, using(exact::proofs::Integers::of_int_is))]
pub fn is_motion(motion: Decimal) -> bool
    ensures value { result ≡ spec.is_motion motion }
    ensures range { IsTrue result ↔ zero_ℚ <ℚ value motion }
{
    Decimal::whole(0).is_below(motion)
}

/// Whether an eccentricity is from 0 to below 1.
#[tactic(auto, using(exact::proofs::Integers::of_int_is))]
pub fn is_eccentricity(ecc: Decimal) -> bool
    ensures value { result ≡ spec.is_eccentricity ecc }
    ensures range { IsTrue result ↔ (zero_ℚ ≤ℚ value ecc) × (value ecc <ℚ one_ℚ) }
{
    Decimal::whole(0).is_at_most(ecc) && ecc.is_below(Decimal::whole(1))
}

/// Whether an inclination is from 0 to 180 degrees.
pub fn is_inclination(incl: Decimal) -> bool
    ensures value { result ≡ spec.is_inclination incl }
    ensures range { IsTrue result ↔ IsFromTo (pos 0) (pos 180) (value incl) }
{
    incl.is_between(0, 180)
}

/// Whether a node, an argument of perigee or a mean anomaly is from -360 to 360 degrees.
pub fn is_angle(angle: Decimal) -> bool
    ensures value { result ≡ spec.is_angle angle }
    ensures range { IsTrue result ↔ IsFromTo (neg_ℤ (pos 360)) (pos 360) (value angle) }
{
    angle.is_between(-360, 360)
}
