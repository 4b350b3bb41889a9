//! Tests of texts, windows and element sets; their ranges, told by tests and by windows at their ends.
#![tactic(auto)]

ghost use Rattle.rows_elements.specs.SetRanges.{TestsTellTheRanges};
ghost use Rattle.rows_elements.specs.SmallWindows.{SmallWindows};

#[cfg(test)]
mod sets;
#[cfg(test)]
mod texts;
#[cfg(test)]
mod windows;

/// The numbers of a set pass their tests exactly where they are in their ranges.
#[tactic(auto, using(crate::proofs::SetCases::tests_tell_the_ranges))]
pub fn tests_tell_the_ranges()
    ensures { TestsTellTheRanges }
{}

/// Windows at the ends of their ranges, and just past them.
#[tactic(auto, using(crate::proofs::WindowCases::small_windows))]
pub fn small_windows()
    ensures { SmallWindows }
{}
