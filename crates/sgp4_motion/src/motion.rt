//! The recovered motion of a set, or why the set is refused.
ghost use Rattle.std.specs.Prelude.{◌≡◌, IfErr, IfOk, T};
ghost use Rattle.elements.specs.Elements.{record_of_elements};
ghost use Rattle.sgp4_motion.specs.Fate.{IsBetweenLimits, IsNearEarth, IsOrdinary, IsRefusedExactly, MayRefuseSet};
ghost use Rattle.sgp4_motion.specs.HeldMotion.{CoversEachMotion, HoldsEachMotion, reach_motion};
ghost use Rattle.sgp4_motion.specs.Recovered.{TellsEachForm};

use crate::Recovered;
use crate::faults::shown_fault;
use crate::limits::{is_high, is_short, is_simple};
use crate::lines::{perigee_km, period};
use crate::recovery::recovered;
use elements::Elements;
use fixed_iv::Enc;
use sgp4_shape::SatFault;

/// The recovered motion of a set, whose period is then below 225 minutes and whose perigee is at least the least accepted
/// one, and on one side of 220 km; or the first fault.
pub fn recover_motion<E: Enc>(set: &Elements) -> Result<Recovered<E>, SatFault>
    requires told { T E.tells }
    ensures covers { IfOk result (CoversEachMotion E.Enc (record_of_elements set.now)) }
    ensures held { IfOk result (HoldsEachMotion E.Enc (record_of_elements set.now) reach_motion) }
    ensures ordinary { IfOk result (λ _. IsOrdinary (record_of_elements set.now)
        × IsBetweenLimits (record_of_elements set.now)) }
    ensures near_earth { IfOk result (λ _. IsNearEarth (record_of_elements set.now)) }
    ensures form { IfOk result (TellsEachForm (record_of_elements set.now)) }
    ensures exact { IsRefusedExactly (record_of_elements set.now) (λ fault. result ≡ Err fault) }
    ensures refused { IfErr result (MayRefuseSet (record_of_elements set.now)) }
    ensures no_edge { ¬ (result ≡ Err SatFault.Edge) }
{
    if let Some(fault) = shown_fault(set) {
        return Err(fault);
    }
    let motion = recovered::<E>(set);
    if !is_short(period(motion.n0).bounds()) {
        return Err(SatFault::Deep);
    }
    let perigee = perigee_km(motion.rp).bounds();
    if !is_high(perigee) {
        return Err(SatFault::Low);
    }
    match is_simple(perigee) {
        Some(simple) => Ok(Recovered { simple, ..motion }),
        None => Err(SatFault::Edge),
    }
}
