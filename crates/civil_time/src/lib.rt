//! Instants of the years 1957 to 2056, read from civil time and written as it.
#![tactic(auto)]

mod calendar;
mod columns;
mod fault;
mod form;
mod instant;
pub mod laws;
mod moment;
mod read;
mod text;

pub use calendar::days_in_year;
pub use fault::TimeFault;
pub use instant::Instant;
pub use read::read_utc;
