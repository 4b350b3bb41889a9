//! Intervals that hold square roots and cube roots of squares, computed in whole numbers.
#![tactic(auto)]

mod cube;
mod guess;
mod square;
mod whole;

pub use cube::cbrt2;
pub use square::sqrt;
