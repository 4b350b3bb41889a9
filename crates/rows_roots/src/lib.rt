//! Tests of intervals of roots.
#![tactic(auto)]

#[cfg(test)]
mod classes;
#[cfg(test)]
mod known;
#[cfg(test)]
mod units;
