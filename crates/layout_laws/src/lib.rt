//! Laws of what is printed: texts lose nothing.
#![tactic(auto)]

pub mod laws;
