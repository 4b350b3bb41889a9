//! The position at a time.
ghost use Rattle.std.specs.Prelude.{IfNone, IfSome};
ghost use Rattle.sgp4_periodic.specs.EachPosition.{CoversEachPosition, EachPositionExists, HoldsEachPosition};
ghost use Rattle.sgp4_periodic.specs.Unplaced.{IsUnplaced};

use crate::corrected::corrected_at;
use crate::ellipse::ellipse_of;
use crate::guard::{are_distant, lie_above_0};
use crate::position::position;
use fixed_iv::{Enc, Vec3};
use kepler_enc::kepler;
use sgp4_shape::{Consts, Mean};

/// The position of the mean elements, in Earth radii, in the frame of the true equator and the mean equinox. None where
/// Kepler's equation may have no single root, or the bounds of the semilatus rectum do not lie above 0, or those of the
/// distance are not at least 1.02.
pub fn place<E: Enc>(consts: &Consts<E>, mean: &Mean<E>) -> Option<Vec3<E>>
    ensures covers { IfSome result (CoversEachPosition E.Enc consts.now mean.now) }
    ensures held { IfSome result (HoldsEachPosition E.Enc consts.now mean.now) }
    ensures exists { IfSome result (λ _. EachPositionExists E.Enc consts.now mean.now) }
    ensures none { IfNone result (IsUnplaced E.covers E.extent E.tells consts.now mean.now) }
{
    let ellipse = ellipse_of(consts, mean);
    let root = kepler(ellipse.u, ellipse.ax, ellipse.ay)?;
    if !lie_above_0(ellipse.pl.bounds()) {
        return None;
    }
    let at = corrected_at(consts, mean, &ellipse, root);
    if !are_distant(at.mrt.bounds()) {
        return None;
    }
    Some(position(&at))
}
