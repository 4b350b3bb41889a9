//! The constants of an element set, enclosed.
#![tactic(auto)]

mod brackets;
mod coefficients;
mod density;
mod drag;
mod epoch;
mod gathered;
mod given;
mod initial;
mod laws;
mod numbers;
mod rates;
mod series;
mod size;
mod terms;

pub use initial::prepare;
pub use laws::{
    accepted_constants_are_not_simple, constants_are_of_one_form, constants_exist,
    constants_have_the_form_of_their_motion,
};
