//! What drag does to the semimajor axis, the eccentricity and the mean longitude.
ghost use Rattle.fixed_iv.specs.Follows.{Follows2, Follows7, Follows8};
ghost use Rattle.sgp4_drag.specs.Lines.{decayed, drag_factor, longitude_gain, semimajor_axis};

use fixed_iv::{Enc, Iv};

/// The factor by which drag has shrunk the square root of the semimajor axis. `t2`, `t3`, `t4` cover powers of the time.
pub(crate) fn drag_factor<E: Enc>(c1: E, d2: E, d3: E, d4: E, t: E, t2: E, t3: E, t4: E) -> E
    ensures { Follows8 E.Enc result drag_factor c1 d2 d3 d4 t t2 t3 t4 }
{
    let one = E::constant(Iv::from_ratio(1, 1));
    one.minus(c1.times(t))
        .minus(d2.times(t2))
        .minus(d3.times(t3))
        .minus(d4.times(t4))
}

/// The eccentricity less what drag takes from it, not raised, from the sine of the mean anomaly.
pub(crate) fn decayed<E: Enc>(e: E, bstar: E, c4: E, c5: E, sin_m0: E, sine: E, t: E) -> E
    ensures { Follows7 E.Enc result decayed e bstar c4 c5 sin_m0 sine t }
{
    let secular = bstar.times(c4).times(t);
    let periodic = bstar.times(c5).times(sine.minus(sin_m0));
    e.minus(secular.plus(periodic))
}

/// What drag adds to the mean longitude, over the mean motion. `t2`, `t3`, `t4` cover powers of the time.
pub(crate) fn longitude_gain<E: Enc>(
    t2cof: E,
    t3cof: E,
    t4cof: E,
    t5cof: E,
    t: E,
    t2: E,
    t3: E,
    t4: E,
) -> E
    ensures { Follows8 E.Enc result longitude_gain t2cof t3cof t4cof t5cof t t2 t3 t4 }
{
    t2cof
        .times(t2)
        .plus(t3cof.times(t3))
        .plus(t4.times(t4cof.plus(t.times(t5cof))))
}

/// The semimajor axis at the drag factor.
pub(crate) fn semimajor_axis<E: Enc>(a: E, tempa: E) -> E
    ensures { Follows2 E.Enc result semimajor_axis a tempa }
{
    a.times(tempa.times(tempa))
}
