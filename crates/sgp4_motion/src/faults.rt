//! The faults that given numbers show.
ghost use Rattle.std.specs.Prelude.{◌≡◌, ◌↔◌, IfNone, IfSome, IsTrue};
ghost use Rattle.decimals.specs.Decimal.{value};
ghost use Rattle.elements.specs.Elements.{IsElements, record_of_elements};
ghost use Rattle.exact.specs.Rational.{◌<ℚ◌, abs_ℚ};
ghost use Rattle.sgp4_model.specs.Numerals.{decimal};
ghost use Rattle.sgp4_motion.specs.Fate.{IsBetweenLimits, IsOrdinary, MayRefuseSet};

use elements::{Decimal, Elements};
use sgp4_shape::SatFault;

/// The fault that the given numbers show by themselves. Else the mean motion is between 6.3 and 17 revolutions a day.
pub(crate) fn shown_fault(set: &Elements) -> Option<SatFault>
    ensures some { IfSome result (MayRefuseSet (record_of_elements set.now)) }
    ensures no_edge { ¬ (result ≡ Some SatFault.Edge) }
    ensures elements { IsElements set.now }
    ensures ordinary { IfNone result (IsOrdinary (record_of_elements set.now)) }
    ensures between { IfNone result (IsBetweenLimits (record_of_elements set.now)) }
{
    if Decimal::of_scaled(2, 1).is_below(set.ecc()) {
        return Some(SatFault::Eccentric);
    }
    if Decimal::whole(175).is_below(set.incl()) {
        return Some(SatFault::Inclined);
    }
    if is_dragged(set.bstar()) {
        return Some(SatFault::Drag);
    }
    if set.motion().is_at_most(Decimal::of_scaled(63, 1)) {
        return Some(SatFault::Deep);
    }
    if Decimal::whole(17).is_at_most(set.motion()) {
        return Some(SatFault::Low);
    }
    None
}

/// Whether a drag term is above 0.001 in size.
pub(crate) fn is_dragged(bstar: Decimal) -> bool
    ensures { IsTrue result ↔ (decimal 1 3 <ℚ abs_ℚ (value bstar)) }
{
    let limit = Decimal::of_scaled(1, 3);
    let below = Decimal::of_scaled(-1, 3);
    limit.is_below(bstar) || bstar.is_below(below)
}
