//! Tests of intervals and enclosures, with values from outside.
#![tactic(auto)]

#[cfg(test)]
mod angles;
#[cfg(test)]
mod draw;
#[cfg(test)]
mod enclosure;
#[cfg(test)]
mod expected;
#[cfg(test)]
mod intervals;
#[cfg(test)]
mod operands;
