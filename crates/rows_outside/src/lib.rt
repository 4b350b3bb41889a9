//! Tests of the sources of files and the outputs.
#![tactic(auto)]

ghost use Rattle.rows_outside.specs.SmallCounts.{SmallCounts};
ghost use Rattle.rows_outside.specs.SmallGrowths.{SmallFronts, SmallGrowths};
ghost use Rattle.rows_outside.specs.SmallLoads.{SmallLoads};

#[cfg(test)]
mod memory;
#[cfg(test)]
mod real_files;
#[cfg(test)]
mod writers;

/// Counts that rose and counts that did not.
pub fn small_counts()
    ensures { SmallCounts }
{}

/// Outputs that grew by a piece and outputs that did not.
pub fn small_growths()
    ensures { SmallGrowths }
{}

/// Outputs that grew by a front of a piece and outputs that did not.
pub fn small_fronts()
    ensures { SmallFronts }
{}

/// Files that are as held, or too long, and files that are not.
pub fn small_loads()
    ensures { SmallLoads }
{}
