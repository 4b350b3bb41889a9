//! Tests of the command `day` of the program but its `main`.
#![tactic(auto)]

#[cfg(test)]
mod calls;
#[cfg(test)]
mod daylight;
#[cfg(test)]
mod faults;
#[cfg(test)]
mod refusals;
#[cfg(test)]
mod sunrises;
