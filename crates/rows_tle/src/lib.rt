//! Tests of the reader of two-line element sets.
#![tactic(auto)]

#[cfg(test)]
mod columns;
#[cfg(test)]
mod faults;
#[cfg(test)]
mod lines;
#[cfg(test)]
mod values;
