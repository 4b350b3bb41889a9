//! The remaining coefficients.
ghost use Rattle.fixed_iv.specs.Follows.{Follows1, Follows2, Follows4, FollowsRatio1, FollowsRatio3, FollowsRatio4};
ghost use Rattle.sgp4_init.specs.CoefficientLines.{along_perigee, anomaly_cube, anomaly_drag, axis_share, eccentricity_bend, longitude_bend, longitude_square, node_drag, perigee_drag};

use crate::numbers::number;
use fixed_iv::Enc;

/// What the drag rate of the argument of perigee takes of the density, the motion and the inclination.
pub(crate) fn along_perigee<E: Enc>(coef: E, xi: E, n0: E, si: E) -> E
    ensures { Follows4 E.Enc result along_perigee coef xi n0 si }
{
    coef.times(xi).times(n0.times(si))
}

/// The drag rate of the argument of perigee over its cosine. `factor` is the drag term times -2 J3 / J2, taken in before
/// the division.
pub(crate) fn perigee_drag<E: Enc>(along: E, factor: E, e: E) -> E
    ensures { FollowsRatio3 E.Enc result perigee_drag along factor e }
{
    along.times(factor).divided(e)
}

/// What the drag term of the mean anomaly takes of the semimajor axis.
pub(crate) fn axis_share<E: Enc>(a: E) -> E
    ensures { FollowsRatio1 E.Enc result axis_share a }
{
    number::<E>(-28_000, 6_378_135).divided(a)
}

/// The drag term of the mean anomaly. `factor` is the drag term over the eccentricity.
pub(crate) fn anomaly_drag<E: Enc>(share: E, xi: E, factor: E, e: E) -> E
    ensures { FollowsRatio4 E.Enc result anomaly_drag share xi factor e }
{
    let scaled = number::<E>(42_000, 6_378_135).times(xi);
    let cube = scaled.times(scaled).times(scaled);
    share.times(cube).times(factor).divided(e)
}

/// The drag term of the node.
pub(crate) fn node_drag<E: Enc>(bb: E, w1: E, c: E, c1: E) -> E
    ensures { Follows4 E.Enc result node_drag bb w1 c c1 }
{
    number::<E>(-7, 2).times(bb).times(w1.times(c)).times(c1)
}

/// The drag term of the mean longitude with the square of the time.
pub(crate) fn longitude_square<E: Enc>(c1: E) -> E
    ensures { Follows1 E.Enc result longitude_square c1 }
{
    number::<E>(3, 2).times(c1)
}

/// The long-period term of the mean longitude, of the cosine of the inclination and the tangent of half of it.
pub(crate) fn longitude_bend<E: Enc>(c: E, tangent: E) -> E
    ensures { Follows2 E.Enc result longitude_bend c tangent }
{
    let sum = number::<E>(3, 1).plus(number::<E>(5, 1).times(c));
    number::<E>(253_881, 433_046_400).times(sum).times(tangent)
}

/// The long-period term of the eccentricity vector.
pub(crate) fn eccentricity_bend<E: Enc>(si: E) -> E
    ensures { Follows1 E.Enc result eccentricity_bend si }
{
    number::<E>(253_881, 216_523_200).times(si)
}

/// The cube of 1 + eta cos M at the epoch.
pub(crate) fn anomaly_cube<E: Enc>(eta: E, cosine: E) -> E
    ensures { Follows2 E.Enc result anomaly_cube eta cosine }
{
    let base = number::<E>(1, 1).plus(eta.times(cosine));
    base.times(base).times(base)
}
