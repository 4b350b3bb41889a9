//! The command `show`: the satellites of a file, each by its element set that is nearest to an instant.
#![tactic(auto)]

mod print;
mod run;

pub use run::run_show;
