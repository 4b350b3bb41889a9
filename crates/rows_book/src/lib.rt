//! Tests of the command `book`.
#![tactic(auto)]

#[cfg(test)]
mod calls;
#[cfg(test)]
mod fit;
#[cfg(test)]
mod given;
#[cfg(test)]
mod overlapping;
#[cfg(test)]
mod printed;
#[cfg(test)]
mod refusals;
