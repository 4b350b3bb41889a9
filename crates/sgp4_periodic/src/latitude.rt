//! The argument of latitude before its correction, from the pair of the eccentric longitude.
ghost use Rattle.fixed_iv.specs.Follows.{Follows1, Follows2, FollowsRatio2, FollowsRatio5};
ghost use Rattle.sgp4_periodic.specs.Lines.{cosine_of_latitude, cosine_of_twice, over_one_plus, sine_of_latitude, sine_of_twice};
ghost use Rattle.sgp4_periodic.specs.Parts.{IsCosinePart, IsSinePart};

use crate::numerals::one;
use fixed_iv::Enc;

/// The eccentricity times the cosine of the eccentric anomaly.
pub(crate) fn cosine_part<E: Enc>(ax: E, ay: E, sine: E, cosine: E) -> E
    ensures { IsCosinePart E.Enc ax ay sine cosine result }
{
    ax.times(cosine).plus(ay.times(sine))
}

/// The eccentricity times the sine of the eccentric anomaly.
pub(crate) fn sine_part<E: Enc>(ax: E, ay: E, sine: E, cosine: E) -> E
    ensures { IsSinePart E.Enc ax ay sine cosine result }
{
    ax.times(sine).minus(ay.times(cosine))
}

/// `es` over 1 + b.
pub(crate) fn over_one_plus<E: Enc>(es: E, b: E) -> E
    ensures { FollowsRatio2 E.Enc result over_one_plus es b }
{
    es.divided(one::<E>().plus(b))
}

/// The sine of the argument of latitude. `near` covers the distance over the semimajor axis.
pub(crate) fn sine_of_latitude<E: Enc>(sine: E, ax: E, ay: E, f: E, near: E) -> E
    ensures { FollowsRatio5 E.Enc result sine_of_latitude sine ax ay f near }
{
    sine.minus(ay).minus(ax.times(f)).divided(near)
}

/// Its cosine.
pub(crate) fn cosine_of_latitude<E: Enc>(cosine: E, ax: E, ay: E, f: E, near: E) -> E
    ensures { FollowsRatio5 E.Enc result cosine_of_latitude cosine ax ay f near }
{
    cosine.minus(ax).plus(ay.times(f)).divided(near)
}

/// The sine of twice the argument of latitude.
pub(crate) fn sine_of_twice<E: Enc>(su: E, cu: E) -> E
    ensures { Follows2 E.Enc result sine_of_twice su cu }
{
    let product = su.times(cu);
    product.plus(product)
}

/// The cosine of twice the argument of latitude.
pub(crate) fn cosine_of_twice<E: Enc>(su: E) -> E
    ensures { Follows1 E.Enc result cosine_of_twice su }
{
    let square = su.times(su);
    one::<E>().minus(square.plus(square))
}
