//! The command `plan`: satellites planned over stations, every row certified.
#![tactic(auto)]

mod head;
pub mod laws;
mod light;
mod pair;
mod print;
mod row;
mod run;
mod table;
mod tables;

pub use head::print_head;
pub use plan_core::Plan;
pub use run::{planned, run_plan};
pub use tables::tables_of;
