//! Lines of the recovery.
ghost use Rattle.fixed_iv.specs.Follows.{Follows1, Follows2, FollowsRatio2, FollowsRatio3};
ghost use Rattle.sgp4_motion.specs.Lines.{con41, con42, corrected_axis, effect_at, oblateness, one_less_square, perigee_km};
ghost use Rattle.sgp4_motion.specs.Period.{IsPeriod};

use fixed_iv::{Enc, Iv};

/// 1 less a square.
pub(crate) fn one_less_square<E: Enc>(e: E) -> E
    ensures { Follows1 E.Enc result one_less_square e }
{
    let one = E::constant(Iv::from_ratio(1, 1));
    one.minus(e.times(e))
}

/// Three times the square of the cosine, less 1.
pub(crate) fn con41<E: Enc>(c2: E) -> E
    ensures { Follows1 E.Enc result con41 c2 }
{
    let one = E::constant(Iv::from_ratio(1, 1));
    let three = E::constant(Iv::from_ratio(3, 1));
    three.times(c2).minus(one)
}

/// 1 less five times the square of the cosine.
pub(crate) fn con42<E: Enc>(c2: E) -> E
    ensures { Follows1 E.Enc result con42 c2 }
{
    let one = E::constant(Iv::from_ratio(1, 1));
    let five = E::constant(Iv::from_ratio(5, 1));
    one.minus(five.times(c2))
}

/// The secular effect of the second harmonic, times the square of the semimajor axis.
pub(crate) fn oblateness<E: Enc>(con41: E, b0: E, bb: E) -> E
    ensures { FollowsRatio3 E.Enc result oblateness con41 b0 bb }
{
    let factor = E::constant(Iv::from_ratio(811_962, 1_000_000_000));
    factor.times(con41).divided(b0.times(bb))
}

/// The secular effect at a semimajor axis.
pub(crate) fn effect_at<E: Enc>(d1: E, a: E) -> E
    ensures { FollowsRatio2 E.Enc result effect_at d1 a }
{
    d1.divided(a.times(a))
}

/// The semimajor axis less the effect that the first one shows.
pub(crate) fn corrected_axis<E: Enc>(a1: E, de1: E) -> E
    ensures { Follows2 E.Enc result corrected_axis a1 de1 }
{
    let one = E::constant(Iv::from_ratio(1, 1));
    let third = E::constant(Iv::from_ratio(1, 3));
    let cubic = E::constant(Iv::from_ratio(134, 81));
    let square = de1.times(de1);
    let slope = third.plus(cubic.times(square));
    a1.times(one.minus(square).minus(de1.times(slope)))
}

/// The perigee over the equatorial radius, in kilometres.
pub(crate) fn perigee_km<E: Enc>(rp: E) -> E
    ensures { Follows1 E.Enc result perigee_km rp }
{
    let one = E::constant(Iv::from_ratio(1, 1));
    let radius = E::constant(Iv::from_ratio(6_378_135, 1_000));
    rp.minus(one).times(radius)
}

/// The period over 16,384 minutes.
pub(crate) fn period<E: Enc>(n0: E) -> E
    ensures { IsPeriod E.Enc n0 result }
{
    let two = E::constant(Iv::from_ratio(2, 1));
    two.times(E::pi()).divided(n0)
}
