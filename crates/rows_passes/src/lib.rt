//! Tests of a day of the ISS.
#![tactic(auto)]

#[cfg(test)]
mod day;
#[cfg(test)]
mod judges;
#[cfg(test)]
mod passes;
