//! Tests of the Earth's turn, of the Sun, of shadows and of places of stations.
#![tactic(auto)]

#[cfg(test)]
mod expected;
#[cfg(test)]
mod skies;
