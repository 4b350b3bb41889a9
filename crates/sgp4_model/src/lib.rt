//! The definitions that every promise of the program is made of, and their laws.
#![tactic(auto)]

pub mod certified_laws;
pub mod day_laws;
pub mod kepler_laws;
pub mod laws;
pub mod mask_laws;
pub mod motion_laws;
pub mod offset_laws;
pub mod order_laws;
pub mod root_laws;
pub mod solution_laws;
pub mod span;

pub use span::{Mark, Span};
