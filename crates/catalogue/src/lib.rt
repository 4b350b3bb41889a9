//! The element sets of a file, one for each satellite.
#![tactic(auto)]

mod beginning;
mod catalogue;
mod cut;
mod entry;
mod fault;
mod lines;
mod message;
mod messages;
mod name;
mod nearer;
mod read;
mod sets;
mod two_line;

pub use catalogue::Catalogue;
pub use entry::Entry;
pub use fault::{CatFault, SetFault};
pub use read::read_catalogue;
