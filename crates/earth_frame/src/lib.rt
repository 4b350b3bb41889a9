//! The Earth's turn and the direction of the Sun over a cell of time.
#![tactic(auto)]

mod reduced;
mod rotation;
mod sidereal_time;
mod steady;
mod sun;

pub use rotation::{Turn, to_earth};
pub use sidereal_time::sidereal;
pub use sun::sun_direction;
