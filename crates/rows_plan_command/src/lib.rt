//! Tests of the command `plan`.
#![tactic(auto)]

#[cfg(test)]
mod calls;
#[cfg(test)]
mod given;
#[cfg(test)]
mod printed;
#[cfg(test)]
mod refusals;
