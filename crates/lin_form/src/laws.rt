//! A law of what is covered.
ghost use Rattle.lin_form.specs.Between.{CoveredLiesBetween};

/// Where centre and slope are bounded, the numbers that are covered at a place of the cell are those of the range that lie
/// between the ends of the centre and h times the slope.
pub fn covered_lies_between()
    ensures { CoveredLiesBetween }
{}
