//! Where a satellite of a catalogue is at an instant.
#![tactic(auto)]

mod answer;
mod edge;
mod found;

pub use answer::locate;
pub use edge::{Edge, edge_of};
pub use found::{Found, LocAnswer};
