//! Tests of recovered motions and of refused sets.
#![tactic(auto)]

#[cfg(test)]
mod expected;
#[cfg(test)]
mod motions;
#[cfg(test)]
mod sets;
