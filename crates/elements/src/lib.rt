//! Texts, windows of time and element sets; with the decimals and instants that they are made of.
#![tactic(auto)]

mod elements;
mod ranges;
mod text;
mod window;

pub use civil_time::{Instant, TimeFault, read_utc};
pub use decimals::{Decimal, NumFault, read_decimal};
pub use elements::Elements;
pub use ranges::{is_angle, is_eccentricity, is_inclination, is_motion};
pub use std::alloc::AllocError as OutOfMemory;
pub use text::Text;
pub use window::Window;
