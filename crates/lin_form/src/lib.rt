//! The slope enclosure: a band about lines over the cell, within one interval.
#![tactic(auto)]

mod bands;
mod laws;
pub mod lin;
pub mod parts;
mod products;

pub use laws::covered_lies_between;
pub use lin::Lin;
pub use parts::Parts;
