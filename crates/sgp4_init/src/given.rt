//! What an element set gives, as enclosures.
ghost use Rattle.std.specs.Prelude.{◌≡◌, neg_ℤ, pos};
ghost use Rattle.decimals.specs.Decimal.{value};
ghost use Rattle.elements.specs.Elements.{IsFromTo};
ghost use Rattle.exact.specs.Rational.{abs_ℚ, zero_ℚ, ◌/ℚ◌, ◌≤ℚ◌, ◌<ℚ◌};
ghost use Rattle.fixed_iv.specs.Follows.{Encloses, EnclosesByPi};
ghost use Rattle.fixed_iv.specs.Holds.{IsTightest};
ghost use Rattle.fixed_iv.specs.Place.{Place};
ghost use Rattle.sgp4_model.specs.Degrees.{radians};
ghost use Rattle.sgp4_model.specs.Drag.{near_circle};
ghost use Rattle.sgp4_model.specs.Numerals.{decimal};
ghost use Rattle.sgp4_init.specs.Numerals.{given_angle, given_drag, given_drag_over_eccentricity, given_perigee_drag, perigee_factor};

use elements::Decimal;
use fixed_iv::{Enc, Iv};
use sgp4_motion::scaled;

/// So many degrees in radians.
pub(crate) fn radians<E: Enc>(degrees: Decimal) -> E
    requires { IsFromTo (neg_ℤ (pos 360)) (pos 360) (value degrees) }
    ensures { EnclosesByPi E.Enc result (λ pi. radians pi (value degrees)) given_angle }
{
    E::constant(scaled(degrees, 1, 180)).times(E::pi())
}

/// The drag term.
pub(crate) fn drag_term<E: Enc>(bstar: Decimal) -> E
    requires { abs_ℚ (value bstar) ≤ℚ decimal 1 3 }
    ensures { (h : Place) → Encloses E.Enc result h (value bstar) given_drag }
{
    E::constant(scaled(bstar, 1, 1))
}

/// The drag term times -2 J3 / J2.
pub(crate) fn perigee_drag_factor<E: Enc>(bstar: Decimal) -> E
    requires { abs_ℚ (value bstar) ≤ℚ decimal 1 3 }
    ensures { (h : Place) → Encloses E.Enc result h (perigee_factor (value bstar)) given_perigee_drag }
{
    E::constant(scaled(bstar, 253_881, 54_130_800))
}

/// The drag term over the eccentricity.
pub(crate) fn drag_over_eccentricity<E: Enc>(bstar: Decimal, ecc: Decimal) -> E
    requires drag { abs_ℚ (value bstar) ≤ℚ decimal 1 3 }
    requires eccentric { near_circle <ℚ value ecc }
    ensures { (h : Place) → Encloses E.Enc result h (value bstar /ℚ value ecc) given_drag_over_eccentricity }
{
    E::constant(over(bstar, ecc))
}

/// A decimal over another.
fn over(number: Decimal, divisor: Decimal) -> Iv
    requires { zero_ℚ <ℚ value divisor }
    ensures { IsTightest (λ x. x ≡ value number /ℚ value divisor) result }
{
    let up = 10u64.pow(u32::from(divisor.places()));
    let down = 10u64.pow(u32::from(number.places()));
    Iv::from_ratio(
        i128::from(number.digits()) * i128::from(up),
        i128::from(divisor.digits()) * i128::from(down),
    )
}
