//! Laws of Kepler's equation.

ghost use Rattle.sgp4_model.specs.KeplerLaws.{KeplerRootExists};

/// Kepler's equation has a root where the components of the eccentricity vector are less than 1 in all.
pub fn kepler_root_exists()
    ensures { KeplerRootExists }
{}
