//! What the mean elements give before Kepler's equation is solved.
ghost use Rattle.sgp4_periodic.specs.Ellipse.{HoldsEllipse};

use crate::long_period::{inverse_rectum, longitude, rest_of_square, second_component};
use fixed_iv::Enc;
use sgp4_shape::{Consts, Mean};

/// The ellipse with the long-period corrections.
#[derive(Clone, Copy)]
pub(crate) struct Ellipse<E> {
    /// The first component of the eccentricity vector.
    pub ax: E,
    /// Its second component.
    pub ay: E,
    /// The mean longitude from the node.
    pub u: E,
    /// 1 less the square of the eccentricity vector.
    pub rest: E,
    /// The semilatus rectum, in Earth radii.
    pub pl: E,
}

/// The ellipse of the mean elements.
pub(crate) fn ellipse_of<E: Enc>(consts: &Consts<E>, mean: &Mean<E>) -> Ellipse<E>
    ensures { HoldsEllipse E.Enc consts.now mean.now result }
{
    let (sine, cosine) = mean.wm.sincos();
    let v = inverse_rectum(mean.am, mean.em);
    let ax = mean.em.times(cosine);
    let ay = second_component(mean.em, sine, v, consts.aycof);
    let rest = rest_of_square(ax, ay);
    Ellipse {
        ax,
        ay,
        u: longitude(mean.ml, mean.wm, v, consts.xlcof, ax),
        rest,
        pl: mean.am.times(rest),
    }
}
