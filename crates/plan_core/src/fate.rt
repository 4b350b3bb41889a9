//! Whether a set is accepted in a window.
ghost use Rattle.std.specs.Prelude.{◌≡◌, IfErr, IfOk, Err, None, Some};
ghost use Rattle.plan_core.specs.Fates.{IsFate};

use elements::{Elements, Window};
use orbit_sight::{Craft, is_far};
use sgp4_shape::SatFault;

/// The craft of a set, or why the set is refused in a window. That an end of the window is far from the epoch comes last.
#[tactic(auto, using(crate::proofs::FateLemmas::refused_anywhere))]
pub(crate) fn accept(set: &Elements, window: &Window) -> Result<Craft, SatFault>
    ensures craft { IfOk result (λ craft. craft ≡ set.now) }
    ensures accepted { IfOk result (λ _. IsFate window.now set.now None) }
    ensures refused { IfErr result (λ fault. IsFate window.now set.now (Some fault)) }
{
    match Craft::make(set) {
        Ok(craft) => {
            if is_far(set, window) {
                Err(SatFault::Far)
            } else {
                Ok(craft)
            }
        }
        Err(fault) => Err(fault),
    }
}
