//! Whether a satellite is in the Earth's shadow.
#![tactic(auto)]

mod judge;
mod shadow;
mod vector;

pub use judge::{judge_light, judge_shade};
pub use shadow::shade;
pub use vector::Shade;
