//! Plans: the certified rows of each satellite of a catalogue at each station, over a window.
#![tactic(auto)]

mod fate;
mod fill;
pub mod laws;
mod plan;
mod planner;
mod sat_row;
mod satellite;
mod setting;
mod table;
mod tracks;

pub use plan::Plan;
pub use plan_text::Contact;
pub use planner::Planner;
pub use sat_row::SatRow;
pub use span_bisect::{Span, Track, TrackAnswer};
pub use std::alloc::AllocError as OutOfMemory;
pub use table::{Table, timetable};
