//! The mean elements.
ghost use Rattle.std.specs.Prelude.{IfNone, IfSome};
ghost use Rattle.sgp4_drag.specs.Secular.{CoversEachMean, EachMeanExists, HoldsEachMean, IsOutOfGuard};

use crate::angles::{drag_correction, grown, node};
use crate::eccentricity::raised;
use crate::factors::{decayed, drag_factor, longitude_gain, semimajor_axis};
use crate::guard::{are_at_least_1, is_guarded};
use fixed_iv::Enc;
use sgp4_shape::{Consts, Mean};

/// The mean elements at a time. `t` covers minutes from the epoch divided by 16,384. None where the bounds of the
/// eccentricity, before it is raised, are not inside -0.001 <= e < 1, or those of the semimajor axis are not at least an Earth
/// radius.
pub fn secular<E: Enc>(consts: &Consts<E>, t: E) -> Option<Mean<E>>
    ensures covers { IfSome result (CoversEachMean E.Enc consts.now t) }
    ensures held { IfSome result (HoldsEachMean E.Enc consts.now t) }
    ensures exists { IfSome result (λ _. EachMeanExists E.Enc consts.now t) }
    ensures none { IfNone result (IsOutOfGuard E.Enc consts.now t) }
{
    let k = consts;
    let mf = grown(k.m0, k.mdot, t);
    let (_, cosine) = mf.sincos();
    let bend = k.xmcof.times(k.eta);
    let g = drag_correction(k.omgcof, k.xmcof, bend, k.eta, k.delmo, cosine, t);
    let mm = mf.plus(g);
    let (sine, _) = mm.sincos();
    let ecc = decayed(k.e, k.bstar, k.c4, k.c5, k.sin_m0, sine, t);
    if !is_guarded(ecc.bounds()) {
        return None;
    }
    let t2 = t.times(t);
    let t3 = t2.times(t);
    let t4 = t2.times(t2);
    let tempa = drag_factor(k.c1, k.d2, k.d3, k.d4, t, t2, t3, t4);
    let am = semimajor_axis(k.a, tempa);
    if !are_at_least_1(am.bounds()) {
        return None;
    }
    let templ = longitude_gain(k.t2cof, k.t3cof, k.t4cof, k.t5cof, t, t2, t3, t4);
    Some(Mean {
        am,
        em: raised(ecc),
        ml: mm.plus(k.n0.times(templ)),
        wm: grown(k.w0, k.wdot, t).minus(g),
        om: node(k.o0, k.odot, k.nodecf, t, t2),
    })
}
