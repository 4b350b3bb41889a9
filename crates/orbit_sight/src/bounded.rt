//! Vectors of intervals that are bounded.
ghost use Rattle.std.specs.Prelude.{◌≡◌, IfNone, IfSome};
ghost use Rattle.orbit_sight.specs.Craft.{IsBoundedVector};

use fixed_iv::{Iv, Vec3};

/// The vector, if each of its intervals is bounded.
pub(crate) fn bounded(v: Vec3<Iv>) -> Option<Vec3<Iv>>
    ensures some { IfSome result (λ kept. (kept ≡ v) × IsBoundedVector v) }
    ensures none { IfNone result (¬ IsBoundedVector v) }
{
    if v.x.is_bounded() && v.y.is_bounded() && v.z.is_bounded() {
        Some(v)
    } else {
        None
    }
}
