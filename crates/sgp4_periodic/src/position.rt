//! The position from distance and angles.
ghost use Rattle.sgp4_periodic.specs.Covered.{HoldsPosition};

use crate::corrected::Corrected;
use crate::frame::{cosine_of_sum, first_coordinate, second_coordinate, sine_of_sum};
use fixed_iv::{Enc, Vec3};

/// The position at this distance in the direction of these angles, in Earth radii.
pub(crate) fn position<E: Enc>(at: &Corrected<E>) -> Vec3<E>
    ensures { HoldsPosition E.Enc at.now result }
{
    let (change_sine, change_cosine) = at.du.sincos();
    let sw = sine_of_sum(at.su, at.cu, change_sine, change_cosine);
    let cw = cosine_of_sum(at.su, at.cu, change_sine, change_cosine);
    let (node_sine, node_cosine) = at.xnode.sincos();
    let (tilt_sine, tilt_cosine) = at.xinc.sincos();
    let tilted = tilt_cosine.times(sw);
    Vec3 {
        x: first_coordinate(at.mrt, node_sine, node_cosine, tilted, cw),
        y: second_coordinate(at.mrt, node_sine, node_cosine, tilted, cw),
        z: at.mrt.times(tilt_sine).times(sw),
    }
}
