//! Tests of the slope enclosure, with values from outside.
#![tactic(auto)]

#[cfg(test)]
mod expected;
#[cfg(test)]
mod methods;
