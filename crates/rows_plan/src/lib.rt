//! Tests of plans.
#![tactic(auto)]

#[cfg(test)]
mod calls;
#[cfg(test)]
mod given;
#[cfg(test)]
mod read;
#[cfg(test)]
mod refused;
#[cfg(test)]
mod rows;
#[cfg(test)]
mod slots;
