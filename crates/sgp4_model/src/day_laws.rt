//! Laws of daylight.

ghost use Rattle.sgp4_model.specs.DayLaws.{DaySolutionExists};

/// Each place on the Earth has a day solution at each instant.
pub fn day_solution_exists()
    ensures { DaySolutionExists }
{}
