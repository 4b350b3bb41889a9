//! From the corrected angles to the axes of the true equator and the mean equinox.
ghost use Rattle.fixed_iv.specs.Follows.{Follows4};
ghost use Rattle.sgp4_periodic.specs.Coordinates.{IsFirstCoordinate, IsSecondCoordinate};
ghost use Rattle.sgp4_periodic.specs.Lines.{cosine_of_sum, sine_of_sum};

use fixed_iv::Enc;

/// The sine of a sum, from sines and cosines.
pub(crate) fn sine_of_sum<E: Enc>(su: E, cu: E, sine: E, cosine: E) -> E
    ensures { Follows4 E.Enc result sine_of_sum su cu sine cosine }
{
    su.times(cosine).plus(cu.times(sine))
}

/// The cosine of a sum, from sines and cosines.
pub(crate) fn cosine_of_sum<E: Enc>(su: E, cu: E, sine: E, cosine: E) -> E
    ensures { Follows4 E.Enc result cosine_of_sum su cu sine cosine }
{
    cu.times(cosine).minus(su.times(sine))
}

/// The coordinate along the first axis, from the pair of the node. `tilted` covers the cosine of the inclination times the
/// sine of the argument of latitude.
pub(crate) fn first_coordinate<E: Enc>(mrt: E, sine: E, cosine: E, tilted: E, cw: E) -> E
    ensures { IsFirstCoordinate E.Enc mrt sine cosine tilted cw result }
{
    mrt.times(cosine.times(cw).minus(sine.times(tilted)))
}

/// The coordinate along the second axis.
pub(crate) fn second_coordinate<E: Enc>(mrt: E, sine: E, cosine: E, tilted: E, cw: E) -> E
    ensures { IsSecondCoordinate E.Enc mrt sine cosine tilted cw result }
{
    mrt.times(cosine.times(tilted).plus(sine.times(cw)))
}
