//! Tests of the command `grid`.
#![tactic(auto)]

#[cfg(test)]
mod calls;
#[cfg(test)]
mod printed;
#[cfg(test)]
mod sets;
