//! The depth of a position along the Sun's direction, and its height over the shadow.
ghost use Rattle.fixed_iv.specs.Follows.{Follows4, Follows6};
ghost use Rattle.sun_shade.specs.Lines.{depth, height};
ghost use Rattle.sun_shade.specs.Shading.{CoversEachShadow, IsNarrowDepth, IsNarrowHeight, IsThinDepth, IsThinHeight};

use crate::vector::Shade;
use fixed_iv::{Enc, Iv, Vec3};

/// The shadow's numbers of a position, in Earth radii, and of the Sun's direction, both in the frame of the true equator
/// and the mean equinox. The shadow is a cylinder of one Earth radius.
pub fn shade<E: Enc>(pos: &Vec3<E>, sun: &Vec3<E>) -> Shade<E>
    ensures covers { CoversEachShadow E.Enc pos.now sun.now result }
    ensures p { Follows6 E.Enc result.p depth pos.now.x pos.now.y pos.now.z sun.now.x sun.now.y sun.now.z }
    ensures g { Follows4 E.Enc result.g height pos.now.x pos.now.y pos.now.z result.p }
    ensures narrow_p { IsNarrowDepth E.Enc pos.now sun.now result.p }
    ensures narrow_g { IsNarrowHeight E.Enc pos.now sun.now result.g }
{
    let p = depth(pos, sun);
    Shade {
        p,
        g: height(pos, p),
    }
}

/// The inner product of the position and the direction.
fn depth<E: Enc>(pos: &Vec3<E>, sun: &Vec3<E>) -> E
    ensures follows { Follows6 E.Enc result depth pos.now.x pos.now.y pos.now.z sun.now.x sun.now.y sun.now.z }
    ensures thin { IsThinDepth E.Enc pos.now sun.now result }
{
    let along = pos.x.times(sun.x).plus(pos.y.times(sun.y));
    along.plus(pos.z.times(sun.z))
}

/// The height over the cylinder, from the depth along its axis.
fn height<E: Enc>(pos: &Vec3<E>, p: E) -> E
    ensures follows { Follows4 E.Enc result height pos.now.x pos.now.y pos.now.z p }
    ensures thin { IsThinHeight E.Enc pos.now p result }
{
    let level = pos.x.times(pos.x).plus(pos.y.times(pos.y));
    let square = level.plus(pos.z.times(pos.z));
    let one = E::constant(Iv::from_ratio(1, 1));
    square.minus(p.times(p)).minus(one)
}
