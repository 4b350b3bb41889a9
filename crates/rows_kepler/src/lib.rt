//! Tests of the roots of Kepler's equation.
#![tactic(auto)]

#[cfg(test)]
mod expected;
#[cfg(test)]
mod guard;
#[cfg(test)]
mod roots;
#[cfg(test)]
mod units;
