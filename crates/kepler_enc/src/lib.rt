//! A verified enclosure of the roots of Kepler's equation.
#![tactic(auto)]

mod equation;
mod guess;
mod radius;
mod root;
mod sizes;

pub use root::kepler;
