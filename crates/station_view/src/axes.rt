//! The local axes of a place, and inner products.
ghost use Rattle.sgp4_model.specs.DaySolution.{local_up};
ghost use Rattle.station_view.specs.Axes.{AreTurnedBy, IsAxisOf, IsInnerProductOf};

use crate::spot::Spot;
use fixed_iv::{Enc, Iv, Vec3};

/// The inner product of two vectors in one frame.
pub fn inner_product<E: Enc>(a: &Vec3<E>, b: &Vec3<E>) -> E
    ensures { IsInnerProductOf E.Enc a.now b.now result }
{
    a.x.times(b.x).plus(a.y.times(b.y)).plus(a.z.times(b.z))
}

/// Two components of a vector, turned by an angle whose sine and cosine the intervals hold: (a cos + b sin, b cos - a sin).
pub(crate) fn turned<E: Enc>(sine: Iv, cosine: Iv, a: E, b: E) -> (E, E)
    ensures { AreTurnedBy E.Enc sine cosine a b result.0 result.1 }
{
    let sine = E::constant(sine);
    let cosine = E::constant(cosine);
    (
        cosine.times(a).plus(sine.times(b)),
        cosine.times(b).minus(sine.times(a)),
    )
}

/// The local up of a spot, Earth-fixed: a vector of length 1.
pub fn local_up<E: Enc>(spot: &Spot) -> Vec3<E>
    ensures { IsAxisOf E.Enc spot.now local_up result }
{
    let level = E::constant(spot.cos_lat);
    Vec3 {
        x: level.times(E::constant(spot.cos_lon)),
        y: level.times(E::constant(spot.sin_lon)),
        z: E::constant(spot.sin_lat),
    }
}
