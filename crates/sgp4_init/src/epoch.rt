//! The angles of an element set at its epoch.
ghost use Rattle.elements.specs.Elements.{record_of_elements};
ghost use Rattle.sgp4_motion.specs.Fate.{IsDragged};
ghost use Rattle.sgp4_init.specs.HeldEpoch.{HoldsEpoch};

use crate::given::{drag_term, radians};
use elements::Elements;
use fixed_iv::Enc;

/// The angles at the epoch in radians, sines and cosines that are used again, and the drag term.
#[derive(Clone, Copy)]
pub(crate) struct Epoch<E> {
    /// The node.
    pub(crate) o0: E,
    /// The argument of perigee.
    pub(crate) w0: E,
    /// The mean anomaly.
    pub(crate) m0: E,
    /// The cosine of the argument of perigee.
    pub(crate) cos_w0: E,
    /// The cosine of twice the argument of perigee.
    pub(crate) cos_twice_w0: E,
    /// The sine of the mean anomaly.
    pub(crate) sin_m0: E,
    /// The cosine of the mean anomaly.
    pub(crate) cos_m0: E,
    /// The drag term, per Earth radius.
    pub(crate) bstar: E,
}

/// What a set gives at its epoch.
pub(crate) fn at_epoch<E: Enc>(set: &Elements) -> Epoch<E>
    requires { ¬ IsDragged (record_of_elements set.now) }
    ensures { HoldsEpoch E.Enc (record_of_elements set.now) result }
{
    let w0: E = radians(set.argp());
    let m0: E = radians(set.anomaly());
    let (_, cos_w0) = w0.sincos();
    let (_, cos_twice_w0) = w0.plus(w0).sincos();
    let (sin_m0, cos_m0) = m0.sincos();
    Epoch {
        o0: radians(set.node()),
        w0,
        m0,
        cos_w0,
        cos_twice_w0,
        sin_m0,
        cos_m0,
        bstar: drag_term(set.bstar()),
    }
}
