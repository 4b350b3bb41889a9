//! The absolute value.
ghost use Rattle.sgp4_init.specs.HeldDensity.{IsSize};

use fixed_iv::{Enc, Iv};

/// The absolute value.
pub(crate) fn size<E: Enc>(x: E) -> E
    ensures { IsSize E.Enc x result }
{
    let bounds = x.bounds();
    if bounds.lo > 0 {
        x
    } else if bounds.hi < 0 {
        x.negate()
    } else {
        let either = bounds.hull(-bounds);
        E::constant(either.max_const(Iv::from_ratio(0, 1)))
    }
}
