//! The constants of an element set, or why the set is refused.
ghost use Rattle.std.specs.Prelude.{◌≡◌, IfErr, IfOk, T};
ghost use Rattle.elements.specs.Elements.{record_of_elements};
ghost use Rattle.sgp4_motion.specs.Fate.{IsBetweenLimits, IsDragged, IsNearEarth, IsOfOneForm, IsOrdinary, IsRefusedExactly, MayRefuseSet};
ghost use Rattle.sgp4_init.specs.HeldEach.{CoversEachConsts, HoldsEachConsts, HoldsInitial};
ghost use Rattle.sgp4_init.specs.ReachConsts.{reach_consts};

use crate::coefficients::remaining_coefficients;
use crate::density::density_terms;
use crate::drag::drag_terms;
use crate::epoch::at_epoch;
use crate::gathered::gathered;
use crate::rates::secular_rates;
use crate::series::series_terms;
use elements::Elements;
use fixed_iv::Enc;
use sgp4_motion::{Recovered, recover_motion};
use sgp4_shape::{Consts, SatFault};

/// The constants of a set, whose period is then below 225 minutes and whose perigee is at least the least accepted one; in
/// the simple form where the perigee is below 220 km, and in the full one where it is at least that. Or the first fault,
/// which is never that the set is far.
pub fn prepare<E: Enc>(set: &Elements) -> Result<Consts<E>, SatFault>
    requires told { T E.tells }
    ensures covers { IfOk result (CoversEachConsts E.Enc (record_of_elements set.now)) }
    ensures held { IfOk result (HoldsEachConsts E.Enc (record_of_elements set.now) reach_consts) }
    ensures ordinary { IfOk result (λ _. IsOrdinary (record_of_elements set.now)
        × IsBetweenLimits (record_of_elements set.now)) }
    ensures near_earth { IfOk result (λ _. IsNearEarth (record_of_elements set.now)) }
    ensures of_one_form { IfOk result (λ _. IsOfOneForm (record_of_elements set.now)) }
    ensures exact { IsRefusedExactly (record_of_elements set.now) (λ fault. result ≡ Err fault) }
    ensures refused { IfErr result (MayRefuseSet (record_of_elements set.now)) }
    ensures no_edge { ¬ (result ≡ Err SatFault.Edge) }
{
    let motion = recover_motion::<E>(set)?;
    Ok(initial_constants(set, &motion))
}

/// The constants of a set, of its recovered motion.
fn initial_constants<E: Enc>(set: &Elements, motion: &Recovered<E>) -> Consts<E>
    requires { ¬ IsDragged (record_of_elements set.now) }
    ensures { HoldsInitial E.Enc (record_of_elements set.now) motion.now result }
{
    let epoch = at_epoch(set);
    let density = density_terms(motion);
    let drag = drag_terms(motion, &density, epoch.bstar, epoch.cos_twice_w0);
    let rates = secular_rates(motion);
    let rest = remaining_coefficients(set, &epoch, motion, &density, rates.w1, drag.c1);
    let series = series_terms(motion, density.xi, drag.c1);
    gathered(&epoch, motion, &density, &drag, &rates, &rest, &series)
}
