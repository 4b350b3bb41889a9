//! Tests of stations, of directions and of elevation masks.
#![tactic(auto)]

#[cfg(test)]
mod expected;
#[cfg(test)]
mod masks;
#[cfg(test)]
mod views;
