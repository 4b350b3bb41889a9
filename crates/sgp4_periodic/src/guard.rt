//! The guards on the semilatus rectum and on the distance.
ghost use Rattle.std.specs.Prelude.{◌↔◌, IsTrue};
ghost use Rattle.sgp4_periodic.specs.Guards.{AreDistant, LieAbove0};

use fixed_iv::Iv;

/// Whether the bounds lie above 0.
pub(crate) fn lie_above_0(bounds: Iv) -> bool
    ensures { IsTrue result ↔ LieAbove0 bounds }
{
    bounds.lo >= 1
}

/// Whether the bounds are at least the least distance that is taken, 1.02.
pub(crate) fn are_distant(bounds: Iv) -> bool
    ensures { IsTrue result ↔ AreDistant bounds }
{
    bounds.lo >= 287_104_476_244_870
}
