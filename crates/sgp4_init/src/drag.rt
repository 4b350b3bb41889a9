//! The drag coefficients C1, C4 and C5.
ghost use Rattle.sgp4_init.specs.HeldDrag.{HoldsDrag, HoldsPeriodicDrag};

use crate::brackets::{
    along_orbit, by_eccentricity, by_oblateness, c4_bracket, c5_bracket, share_of_j2, steady_shape,
    turning_shape,
};
use crate::density::Density;
use crate::numbers::number;
use fixed_iv::Enc;
use sgp4_motion::Recovered;

/// The drag coefficients that are used again.
#[derive(Clone, Copy)]
pub(crate) struct Drag<E> {
    /// C1, per 16,384 minutes.
    pub(crate) c1: E,
    /// C4, per 16,384 minutes.
    pub(crate) c4: E,
    /// C5.
    pub(crate) c5: E,
}

/// The drag coefficients, of the drag term and the cosine of twice the argument of perigee.
pub(crate) fn drag_terms<E: Enc>(
    motion: &Recovered<E>,
    density: &Density<E>,
    bstar: E,
    cosine: E,
) -> Drag<E>
    ensures { HoldsDrag E.Enc motion.now density.now bstar cosine result }
{
    let m = motion;
    let d = density;
    let et2 = d.eta.times(d.eta);
    let eeta = m.e.times(d.eta);
    let of_c2 = along_orbit(m.a, et2, eeta).plus(by_oblateness(d.xp, m.con41, et2));
    let steady = steady_shape(m.con41, et2, eeta);
    let turning = turning_shape(m.c, et2, eeta, cosine);
    let round = by_eccentricity(d.eta, m.e, et2);
    let of_c4 = c4_bracket(round, share_of_j2(d.xp, m.a), steady, turning);
    let coef1_n0 = d.coef1.times(m.n0);
    Drag {
        c1: bstar.times(coef1_n0.times(of_c2)),
        c4: coef1_n0.plus(coef1_n0).times(m.p).times(of_c4),
        c5: periodic_drag(motion, d.coef1, et2, eeta),
    }
}

/// C5, of which there is none in the simple form.
fn periodic_drag<E: Enc>(motion: &Recovered<E>, coef1: E, et2: E, eeta: E) -> E
    ensures { HoldsPeriodicDrag E.Enc motion.now coef1 et2 eeta result }
{
    if motion.simple {
        return number(0, 1);
    }
    coef1
        .plus(coef1)
        .times(motion.p)
        .times(c5_bracket(et2, eeta))
}
