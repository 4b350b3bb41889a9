//! Tests of pools and of the bisection, with judges whose answers are listed.
#![tactic(auto)]

#[cfg(test)]
mod answers;
#[cfg(test)]
mod cuts;
#[cfg(test)]
mod listed;
#[cfg(test)]
mod lists;
#[cfg(test)]
mod small;
#[cfg(test)]
mod spans;
#[cfg(test)]
mod surveyed;
