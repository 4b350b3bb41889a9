//! The recovery of the mean motion.
ghost use Rattle.elements.specs.Elements.{record_of_elements};
ghost use Rattle.sgp4_motion.specs.Fate.{IsBetweenLimits, IsOrdinary};
ghost use Rattle.sgp4_motion.specs.HeldMotion.{HoldsEachMotion, reach_recovered};

use crate::Recovered;
use crate::inputs::{axis_power, eccentricity, inclination, mean_motion};
use crate::lines::{con41, con42, corrected_axis, effect_at, oblateness, one_less_square};
use elements::Elements;
use fixed_iv::{Enc, Iv};

/// The recovered motion, where the mean motion is between 6.3 and 17 revolutions a day. Its form is not told yet.
pub(crate) fn recovered<E: Enc>(set: &Elements) -> Recovered<E>
    requires ordinary { IsOrdinary (record_of_elements set.now) }
    requires between { IsBetweenLimits (record_of_elements set.now) }
    ensures { HoldsEachMotion E.Enc (record_of_elements set.now) reach_recovered result }
{
    let one = E::constant(Iv::from_ratio(1, 1));
    let i = inclination::<E>(set.incl());
    let (si, c) = i.sincos();
    let c2 = c.times(c);
    let con41 = con41(c2);
    let e = eccentricity::<E>(set.ecc());
    let bb = one_less_square(e);
    let b0 = bb.sqrt();
    let power = axis_power::<E>(set.motion());
    let a1 = power.cbrt2();
    let d1 = oblateness(con41, b0, bb);
    let a2 = corrected_axis(a1, effect_at(d1, a1));
    let growth = one.plus(effect_at(d1, a2));
    let n0 = mean_motion::<E>(set.motion()).divided(growth);
    let a = power.times(growth).cbrt2();
    let p = a.times(bb);
    let rp = a.times(one.minus(e));
    let con42 = con42(c2);
    Recovered {
        i,
        c,
        si,
        e,
        n0,
        a,
        bb,
        b0,
        p,
        rp,
        con41,
        con42,
        simple: false,
    }
}
