//! What the program does: from the words of its command line to the bytes that it writes.
#![tactic(auto)]

mod given;
mod outcome;
mod top;

pub use book_command::BookPlan;
pub use day_command::DayResult;
pub use given::run_given;
pub use grid_command::Counted;
pub use locate_command::{Edge, Found, LocAnswer};
pub use outcome::{Outcome, Product, status};
pub use top::{run, run_for_nobody};
