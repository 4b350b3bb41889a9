//! The command `grid`: generated satellites planned over two stations, and counted.
#![tactic(auto)]

mod counted;
mod counts;
pub mod laws;
mod places;
mod print;
mod rows;
mod run;
mod satellites;
mod set;
mod tally;

pub use counted::Counted;
pub use counts::summary_of;
pub use places::{hour, two_stations};
pub use plan_text::Summary;
pub use run::run_grid;
pub use satellites::generated;
