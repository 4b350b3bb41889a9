//! Tests of the reader of orbit mean-elements messages.
#![tactic(auto)]

#[cfg(test)]
mod beginnings;
#[cfg(test)]
mod kinds;
#[cfg(test)]
mod lines;
#[cfg(test)]
mod numbers;
#[cfg(test)]
mod order;
#[cfg(test)]
mod prefixes;
#[cfg(test)]
mod ranges;
#[cfg(test)]
mod values;
#[cfg(test)]
mod words;
