//! Tests of the shadow's numbers and of their bounds.
#![tactic(auto)]

#[cfg(test)]
mod expected;
#[cfg(test)]
mod shades;
