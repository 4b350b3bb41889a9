//! What the program prints: a line at a time, in a buffer on the stack.
#![tactic(auto)]

mod catalogue_fault;
mod day;
mod line;
mod locate;
mod refusal;
mod satellite;
mod show;
mod station_fault;

pub use catalogue_fault::catalogue_fault_line;
pub use day::{END, PASSDAY, full_line, span_line, unresolved_line, window_line};
pub use line::Line;
pub use locate::{DECAYED, PASSLOCATE, at_line, edge_line, missing_line};
pub use refusal::{memory_line, read_line, too_long_line, usage_line, window_fault_line};
pub use satellite::sat_line;
pub use show::{PASSSHOW, set_line};
pub use station_fault::station_fault_line;
