//! The secular angles.
ghost use Rattle.fixed_iv.specs.Follows.{Follows3, Follows5, Follows7};
ghost use Rattle.sgp4_drag.specs.Lines.{drag_correction, grown, node};

use fixed_iv::{Enc, Iv};

/// A quantity that starts so and grows at a steady rate.
pub(crate) fn grown<E: Enc>(start: E, rate: E, t: E) -> E
    ensures { Follows3 E.Enc result grown start rate t }
{
    start.plus(rate.times(t))
}

/// The node, with what drag adds. `t2` covers the square of the time.
pub(crate) fn node<E: Enc>(start: E, rate: E, bend: E, t: E, t2: E) -> E
    ensures { Follows5 E.Enc result node start rate bend t t2 }
{
    start.plus(rate.times(t)).plus(bend.times(t2))
}

/// What drag adds to the mean anomaly and takes from the argument of perigee, from the cosine of the mean anomaly. `bend`
/// covers the product of `xmcof` and `eta`. The cube of 1 + eta cos M less 1 is eta times the last factor of `turning`; so
/// only that small product meets the cosine.
pub(crate) fn drag_correction<E: Enc>(
    omgcof: E,
    xmcof: E,
    bend: E,
    eta: E,
    delmo: E,
    cosine: E,
    t: E,
) -> E
    ensures { Follows7 E.Enc result drag_correction omgcof xmcof bend eta delmo cosine t }
{
    let one = E::constant(Iv::from_ratio(1, 1));
    let three = E::constant(Iv::from_ratio(3, 1));
    let wave = eta.times(cosine);
    let inner = wave.times(three.plus(wave));
    let turning = cosine.times(three.plus(inner));
    let epoch = xmcof.times(delmo.minus(one));
    omgcof.times(t).plus(bend.times(turning)).minus(epoch)
}
