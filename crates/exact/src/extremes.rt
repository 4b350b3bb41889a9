//! Laws of the greater and the lesser of two numbers, and of sums.

ghost use Rattle.exact.specs.Extremes.{LargerIsLeastAbove, LesserIsGreatestBelow, SumsGoOn};

/// The greater of two numbers is at least both, and at most what both are at most; and so the lesser, the other way.
pub fn extremes_are_bounds()
    ensures larger { LargerIsLeastAbove }
    ensures lesser { LesserIsGreatestBelow }
{}

/// The sum of two lists in a row is the sum of their sums.
pub fn sums_go_on()
    ensures { SumsGoOn }
{}
