//! Laws of elevation masks.

ghost use Rattle.sgp4_model.specs.MaskLaws.{NoneIsBoth, SomeSectorHolds, SomeSectorHoldsBetween};

/// Each direction is held by some sector of a mask whose borders go round the horizon by steps of at most 90 degrees.
pub fn some_sector_holds()
    ensures { SomeSectorHolds }
{}

/// Where a direction lies past some border of a mask, or on it, and short of some border, or on it, a sector holds it.
pub fn some_sector_holds_between()
    ensures { SomeSectorHoldsBetween }
{}

/// A direction that some sector holds is not both above the mask and below it.
pub fn none_is_both()
    ensures { NoneIsBoth }
{}
