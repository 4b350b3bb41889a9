//! A law of the offset of UT1 from UTC.

ghost use Rattle.sgp4_model.specs.OffsetLaws.{OffsetShiftsTheSiderealPair};

/// The sidereal pairs with an offset of d milliseconds at x are those with offset 0 at x + d / 1000.
pub fn offset_shifts_the_sidereal_pair()
    ensures { OffsetShiftsTheSiderealPair }
{}
