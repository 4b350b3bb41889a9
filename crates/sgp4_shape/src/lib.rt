//! The shape of enclosed orbits: the constants of an element set, and the mean elements at a time.
#![tactic(auto)]

mod consts;
mod fault;
mod lifted;
mod mean;

pub use consts::Consts;
pub use fault::SatFault;
pub use lifted::lift;
pub use mean::Mean;
