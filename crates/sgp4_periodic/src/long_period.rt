//! The long-period corrections of the eccentricity vector and of the mean longitude.
ghost use Rattle.fixed_iv.specs.Follows.{Follows2, Follows4, Follows5, FollowsRatio2};
ghost use Rattle.sgp4_periodic.specs.Lines.{inverse_rectum, longitude, rest_of_square, second_component};

use crate::numerals::one;
use fixed_iv::Enc;

/// One over the semilatus rectum: 1 / (a (1 - e^2)).
pub(crate) fn inverse_rectum<E: Enc>(am: E, em: E) -> E
    ensures { FollowsRatio2 E.Enc result inverse_rectum am em }
{
    one::<E>().divided(am.times(one::<E>().minus(em.times(em))))
}

/// The second component of the eccentricity vector, corrected, from the sine of the argument of perigee and
/// one over the semilatus rectum.
pub(crate) fn second_component<E: Enc>(em: E, sine: E, v: E, aycof: E) -> E
    ensures { Follows4 E.Enc result second_component em sine v aycof }
{
    em.times(sine).plus(v.times(aycof))
}

/// The mean longitude from the node, corrected. `ax` covers the first component of the eccentricity vector.
pub(crate) fn longitude<E: Enc>(ml: E, wm: E, v: E, xlcof: E, ax: E) -> E
    ensures { Follows5 E.Enc result longitude ml wm v xlcof ax }
{
    ml.plus(wm).plus(v.times(xlcof).times(ax))
}

/// 1 - e^2 of the eccentricity vector.
pub(crate) fn rest_of_square<E: Enc>(ax: E, ay: E) -> E
    ensures { Follows2 E.Enc result rest_of_square ax ay }
{
    one::<E>().minus(ax.times(ax).plus(ay.times(ay)))
}
