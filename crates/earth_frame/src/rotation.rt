//! The rotation to the Earth-fixed frame.
ghost use Rattle.earth_frame.specs.HeldVector.{CoversEachRotated, HoldsEachRotated};

use fixed_iv::{Enc, Vec3};

/// The sine and the cosine of the sidereal angle, enclosed.
#[derive(Clone, Copy)]
pub struct Turn<E> {
    pub sin: E,
    pub cos: E,
}

/// The vector, given in the frame of the true equator and the mean equinox, in the Earth-fixed frame.
pub fn to_earth<E: Enc>(turn: &Turn<E>, v: &Vec3<E>) -> Vec3<E>
    ensures covers { CoversEachRotated E.Enc turn.now.sin turn.now.cos v.now result }
    ensures held { HoldsEachRotated E.Enc turn.now.sin turn.now.cos v.now result }
{
    Vec3 {
        x: v.x.times(turn.cos).plus(v.y.times(turn.sin)),
        y: v.x.negate().times(turn.sin).plus(v.y.times(turn.cos)),
        z: v.z,
    }
}
