//! Laws of the orbit equations' solutions.

ghost use Rattle.sgp4_model.specs.SolutionLaws.{LitSolutionExists, MeanElementsExist, PositionExists, SolutionExists};

/// All constants have mean elements at every time.
pub fn mean_elements_exist()
    ensures { MeanElementsExist }
{}

/// Constants and mean elements have a position where am (1 - em^2) is not 0, the components of the eccentricity vector are
/// at most 1 - 2^-48 in all, and the semilatus rectum is above 0.
pub fn position_exists()
    ensures { PositionExists }
{}

/// A set and a station have a solution at each instant at which the set has a position, with each offset of UT1.
pub fn solution_exists()
    ensures { SolutionExists }
{}

/// A set has a lit solution at each instant at which it has a position.
pub fn lit_solution_exists()
    ensures { LitSolutionExists }
{}
