//! Tests of the constants of element sets.
#![tactic(auto)]

#[cfg(test)]
mod constants;
#[cfg(test)]
mod expected;
#[cfg(test)]
mod lines;
#[cfg(test)]
mod sets;
