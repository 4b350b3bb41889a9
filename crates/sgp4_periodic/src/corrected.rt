//! Distance and angles with their short-period corrections.
ghost use Rattle.sgp4_periodic.specs.Corrected.{HoldsCorrected};

use crate::ellipse::Ellipse;
use crate::latitude::{
    cosine_of_latitude, cosine_of_twice, cosine_part, over_one_plus, sine_of_latitude,
    sine_of_twice, sine_part,
};
use crate::numerals::one;
use crate::short_period::{
    distance, half_j2_over, inclination, latitude_change, node, one_and_a_half,
};
use fixed_iv::Enc;
use sgp4_shape::{Consts, Mean};

/// Distance and angles with their short-period corrections.
#[derive(Clone, Copy)]
pub(crate) struct Corrected<E> {
    /// The distance, in Earth radii.
    pub mrt: E,
    /// The sine of the argument of latitude, not corrected.
    pub su: E,
    /// Its cosine.
    pub cu: E,
    /// What is added to the argument of latitude.
    pub du: E,
    /// The node.
    pub xnode: E,
    /// The inclination.
    pub xinc: E,
}

/// The corrected distance and angles at Kepler's root, on this ellipse.
pub(crate) fn corrected_at<E: Enc>(
    consts: &Consts<E>,
    mean: &Mean<E>,
    ellipse: &Ellipse<E>,
    root: E,
) -> Corrected<E>
    ensures { HoldsCorrected E.Enc consts.now mean.now ellipse.now root result }
{
    let (sine, cosine) = root.sincos();
    let near = one::<E>().minus(cosine_part(ellipse.ax, ellipse.ay, sine, cosine));
    let b = ellipse.rest.sqrt();
    let f = over_one_plus(sine_part(ellipse.ax, ellipse.ay, sine, cosine), b);
    let su = sine_of_latitude(sine, ellipse.ax, ellipse.ay, f, near);
    let cu = cosine_of_latitude(cosine, ellipse.ax, ellipse.ay, f, near);
    let s2 = sine_of_twice(su, cu);
    let c2 = cosine_of_twice(su);
    let k1 = half_j2_over(ellipse.pl);
    let k2 = k1.divided(ellipse.pl);
    let k = one_and_a_half(k2);
    let rl = mean.am.times(near);
    let mrt = distance(rl, k1, k, b, consts.con41, consts.c, c2);
    Corrected {
        mrt,
        su,
        cu,
        du: latitude_change(k2, consts.c, s2),
        xnode: node(mean.om, k, consts.c, s2),
        xinc: inclination(consts.i, k, consts.c, consts.si, c2),
    }
}
