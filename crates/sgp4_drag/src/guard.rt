//! The guards on the eccentricity and on the semimajor axis.
ghost use Rattle.std.specs.Prelude.{◌↔◌, IsTrue};
ghost use Rattle.sgp4_drag.specs.Guard.{AreAtLeast1, IsInsideGuard};

use fixed_iv::Iv;

/// Whether the bounds are at least -0.001 and below 1.
pub(crate) fn is_guarded(bounds: Iv) -> bool
    ensures { IsTrue result ↔ IsInsideGuard bounds }
{
    bounds.lo >= -281_474_976_710 && bounds.hi < 281_474_976_710_656
}

/// Whether the bounds are at least 1.
pub(crate) fn are_at_least_1(bounds: Iv) -> bool
    ensures { IsTrue result ↔ AreAtLeast1 bounds }
{
    bounds.lo >= 281_474_976_710_656
}
