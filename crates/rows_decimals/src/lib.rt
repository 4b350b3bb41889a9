//! Tests of decimals.
#![tactic(auto)]

#[cfg(test)]
mod order;
#[cfg(test)]
mod printing;
#[cfg(test)]
mod reading;
