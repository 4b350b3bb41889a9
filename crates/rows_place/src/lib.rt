//! Tests of enclosed positions.
#![tactic(auto)]

#[cfg(test)]
mod expected;
#[cfg(test)]
mod positions;
#[cfg(test)]
mod published;
