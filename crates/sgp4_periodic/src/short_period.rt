//! The short-period corrections.
ghost use Rattle.fixed_iv.specs.Follows.{Follows1, Follows3, Follows4, Follows5, Follows7, FollowsRatio1};
ghost use Rattle.sgp4_periodic.specs.Lines.{distance, half_j2_over, inclination, latitude_change, node, one_and_a_half};

use crate::numerals::one;
use fixed_iv::{Enc, Iv};

/// Half of J2 over the semilatus rectum. J2 is that of WGS-72, 0.001082616, without a unit.
pub(crate) fn half_j2_over<E: Enc>(pl: E) -> E
    ensures { FollowsRatio1 E.Enc result half_j2_over pl }
{
    E::constant(Iv::from_ratio(541_308, 1_000_000_000)).divided(pl)
}

/// 1.5 times the coefficient `k2`.
pub(crate) fn one_and_a_half<E: Enc>(k2: E) -> E
    ensures { Follows1 E.Enc result one_and_a_half k2 }
{
    E::constant(Iv::from_ratio(3, 2)).times(k2)
}

/// The distance, in Earth radii. `k` covers 1.5 times the coefficient `k2`.
pub(crate) fn distance<E: Enc>(rl: E, k1: E, k: E, b: E, con41: E, c: E, c2: E) -> E
    ensures { Follows7 E.Enc result distance rl k1 k b con41 c c2 }
{
    let steady = one::<E>().minus(k.times(b).times(con41));
    let wave = E::constant(Iv::from_ratio(1, 2))
        .times(k1)
        .times(one::<E>().minus(c.times(c)))
        .times(c2);
    rl.times(steady).plus(wave)
}

/// What is added to the argument of latitude.
pub(crate) fn latitude_change<E: Enc>(k2: E, c: E, s2: E) -> E
    ensures { Follows3 E.Enc result latitude_change k2 c s2 }
{
    let factor = E::constant(Iv::from_ratio(7, 1))
        .times(c.times(c))
        .minus(one::<E>());
    E::constant(Iv::from_ratio(-1, 4))
        .times(k2)
        .times(factor)
        .times(s2)
}

/// The node. `k` covers 1.5 times the coefficient `k2`.
pub(crate) fn node<E: Enc>(om: E, k: E, c: E, s2: E) -> E
    ensures { Follows4 E.Enc result node om k c s2 }
{
    om.plus(k.times(c).times(s2))
}

/// The inclination. `k` covers 1.5 times the coefficient `k2`.
pub(crate) fn inclination<E: Enc>(i: E, k: E, c: E, si: E, c2: E) -> E
    ensures { Follows5 E.Enc result inclination i k c si c2 }
{
    i.plus(k.times(c).times(si).times(c2))
}
