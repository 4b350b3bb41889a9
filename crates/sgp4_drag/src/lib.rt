//! The mean elements at a time: secular effects of oblateness and drag.
#![tactic(auto)]

mod angles;
mod eccentricity;
mod factors;
mod guard;
mod mean;

pub use mean::secular;
