//! The command `locate`: bounds of a satellite's position at an instant.
#![tactic(auto)]

mod print;
mod run;

pub use run::run_locate;
pub use sat_locate::{Edge, Found, LocAnswer};
