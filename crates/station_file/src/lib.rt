//! Station files: the stations that a TOML text lists, or its first fault.
#![tactic(auto)]

mod border;
mod fault;
mod field;
pub mod laws;
mod mask;
mod mask_field;
mod read;
mod row;
mod sector;
mod stations;
mod table;
mod version;

pub use fault::{StFault, StKey};
pub use mask::MaskRow;
pub use read::read_stations;
pub use row::StationRow;
pub use sector::Sector;
pub use stations::Stations;
