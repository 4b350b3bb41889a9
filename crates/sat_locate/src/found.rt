//! What is found of a satellite.
ghost use Rattle.std.specs.Prelude.{◌≡◌};

use crate::edge::Edge;
use elements::{Instant, Text};
use sgp4_shape::SatFault;

/// What is found of a satellite at an instant.
#[derive(Drop)]
pub enum Found {
    /// No satellite has the number.
    Missing,
    /// Its element set is refused.
    Refused {
        fault: SatFault,
        name: Text,
    },
    /// Each coordinate of its position lies between two bounds.
    Inside {
        name: Text,
        x: Edge,
        y: Edge,
        z: Edge,
    },
    /// It has decayed: some record of its set sinks there, and no bounds of its position are known.
    Decayed {
        name: Text,
    },
}

/// The answer for a catalogue number and an instant.
#[derive(Drop)]
pub struct LocAnswer {
    pub at: Instant,
    pub number: u32,
    pub found: Found,
}

impl LocAnswer {
    ghost use Rattle.sat_locate.specs.Found.{found_record, is_placed};

    /// Whether bounds of the position were found.
    pub fn is_placed(&self) -> bool
        ensures { result ≡ is_placed (found_record self.now.found) }
    {
        match &self.found {
            Found::Inside { .. } => true,
            Found::Missing => false,
            Found::Refused { .. } => false,
            Found::Decayed { .. } => false,
        }
    }
}
