//! The mean motion of an element set, recovered, and the sets that are refused.
#![tactic(auto)]

mod faults;
mod given;
mod inputs;
mod laws;
mod limits;
mod lines;
mod motion;
mod recovered;
mod recovery;

pub use given::scaled;
pub use laws::{
    accepted_sets_are_near_a_limit, near_earth_sets_are_full, refused_sets_may_be_refused,
};
pub use limits::LEAST_PERIGEE_KM;
pub use motion::recover_motion;
pub use recovered::Recovered;
