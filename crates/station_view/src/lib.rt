//! How a place on the Earth sees the sky.
#![tactic(auto)]

mod axes;
mod judge;
pub mod laws;
mod mask;
mod parts;
mod place;
mod sector;
mod spot;
mod station;
mod toward;
mod vector;

pub use axes::{inner_product, local_up};
pub use judge::{judge_lengths, judge_mask};
pub use mask::Mask;
pub use parts::{mask_parts, reversed};
pub use sector::EnclosedSector;
pub use spot::Spot;
pub use station::Station;
pub use toward::{lengths, sight};
pub use vector::{Lengths, Sight};
