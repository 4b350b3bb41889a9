//! Reads the two lines of an element set.
#![tactic(auto)]

mod check;
mod columns;
mod digits;
mod fault;
mod fields;
mod fixed;
mod forms;
mod line_one;
mod line_two;
mod number;
mod ranges;
mod read;
mod whole;

pub use fault::TleFault;
pub use read::read_pair;
