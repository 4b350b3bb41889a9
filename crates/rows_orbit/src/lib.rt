//! Tests of enclosed orbits.
#![tactic(auto)]

#[cfg(test)]
mod expected;
#[cfg(test)]
mod mean_elements;
