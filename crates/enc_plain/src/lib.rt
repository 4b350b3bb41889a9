//! The plain enclosure: one interval for the whole cell.
#![tactic(auto)]

pub mod plain;

pub use plain::Plain;
