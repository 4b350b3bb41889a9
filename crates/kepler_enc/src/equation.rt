//! Kepler's equation at an angle, and a step of Newton's rule.
ghost use Rattle.fixed_iv.specs.Follows.{Follows4, Follows6};
ghost use Rattle.kepler_enc.specs.Lines.{residual, rise};
ghost use Rattle.kepler_enc.specs.Step.{IsStepped};

use crate::sizes::one;
use fixed_iv::Enc;

/// What is left of the equation at an angle with this sine and cosine.
pub(crate) fn residual<E: Enc>(u: E, ax: E, ay: E, angle: E, sine: E, cosine: E) -> E
    ensures { Follows6 E.Enc result residual u ax ay angle sine cosine }
{
    angle.plus(ay.times(cosine)).minus(ax.times(sine)).minus(u)
}

/// How steeply what is left rises with the angle.
pub(crate) fn rise<E: Enc>(ax: E, ay: E, sine: E, cosine: E) -> E
    ensures { Follows4 E.Enc result rise ax ay sine cosine }
{
    let unit = E::constant(one());
    unit.minus(ay.times(sine)).minus(ax.times(cosine))
}

/// Where a step of Newton's rule leads from an angle, and the rest of the way to the root.
pub(crate) fn stepped<E: Enc>(angle: E, residual: E, rise: E, rest: E) -> E
    ensures { IsStepped E.Enc angle residual rise rest result }
{
    angle.minus(residual.divided(rise)).plus(rest)
}
