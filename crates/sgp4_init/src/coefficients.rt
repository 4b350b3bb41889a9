//! The remaining coefficients.
ghost use Rattle.elements.specs.Elements.{record_of_elements};
ghost use Rattle.sgp4_motion.specs.Fate.{IsDragged};
ghost use Rattle.sgp4_init.specs.HeldCoefficients.{HoldsCoefficients, HoldsDividedTerms};

use crate::density::Density;
use crate::epoch::Epoch;
use crate::given::{drag_over_eccentricity, perigee_drag_factor};
use crate::numbers::number;
use crate::terms::{
    along_perigee, anomaly_cube, anomaly_drag, axis_share, eccentricity_bend, longitude_bend,
    longitude_square, node_drag, perigee_drag,
};
use elements::{Decimal, Elements};
use fixed_iv::Enc;
use sgp4_motion::Recovered;

/// The remaining coefficients, in units of 16,384 minutes.
#[derive(Clone, Copy)]
pub(crate) struct Coefficients<E> {
    /// The drag rate of the argument of perigee.
    pub(crate) omgcof: E,
    /// The drag term of the mean anomaly that goes with its cosine.
    pub(crate) xmcof: E,
    /// The drag term of the node with the square of the time.
    pub(crate) nodecf: E,
    /// The drag term of the mean longitude with the square of the time.
    pub(crate) t2cof: E,
    /// The long-period term of the mean longitude.
    pub(crate) xlcof: E,
    /// The long-period term of the eccentricity vector.
    pub(crate) aycof: E,
    /// The cube of 1 + eta cos M at the epoch.
    pub(crate) delmo: E,
}

/// The drag terms of the argument of perigee and of the mean anomaly, which are divided by the eccentricity. Both are 0
/// in the simple form, and where it is at most 0.0001.
pub(crate) fn divided_terms<E: Enc>(
    set: &Elements,
    motion: &Recovered<E>,
    density: &Density<E>,
    cos_w0: E,
) -> (E, E)
    requires { ¬ IsDragged (record_of_elements set.now) }
    ensures { HoldsDividedTerms E.Enc set.now motion.now density.now cos_w0 result }
{
    if motion.simple {
        return (number(0, 1), number(0, 1));
    }
    let ecc = set.ecc();
    if ecc.is_at_most(Decimal::of_scaled(1, 4)) {
        return (number(0, 1), number(0, 1));
    }
    let m = motion;
    let d = density;
    let of_perigee = perigee_drag_factor(set.bstar());
    let of_anomaly = drag_over_eccentricity(set.bstar(), ecc);
    let along = along_perigee(d.coef, d.xi, m.n0, m.si);
    (
        perigee_drag(along, of_perigee, m.e).times(cos_w0),
        anomaly_drag(axis_share(m.a), d.xi, of_anomaly, m.e),
    )
}

/// The remaining coefficients, of w1 and C1 too.
pub(crate) fn remaining_coefficients<E: Enc>(
    set: &Elements,
    epoch: &Epoch<E>,
    motion: &Recovered<E>,
    density: &Density<E>,
    w1: E,
    c1: E,
) -> Coefficients<E>
    requires { ¬ IsDragged (record_of_elements set.now) }
    ensures { HoldsCoefficients E.Enc set.now epoch.now motion.now density.now w1 c1 result }
{
    let (omgcof, xmcof) = divided_terms(set, motion, density, epoch.cos_w0);
    let sum = number::<E>(1, 1).plus(motion.c);
    let tangent = motion.si.divided(sum);
    Coefficients {
        omgcof,
        xmcof,
        nodecf: node_drag(motion.bb, w1, motion.c, c1),
        t2cof: longitude_square(c1),
        xlcof: longitude_bend(motion.c, tangent),
        aycof: eccentricity_bend(motion.si),
        delmo: anomaly_cube(density.eta, epoch.cos_m0),
    }
}
