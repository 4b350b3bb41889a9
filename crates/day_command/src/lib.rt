//! The command `day`: the daylight of a place over a window.
#![tactic(auto)]

mod day;
mod print;
mod run;
mod track;

pub use day::DayResult;
pub use run::run_day;
