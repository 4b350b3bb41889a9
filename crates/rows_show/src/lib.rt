//! Tests of the command `show` of the program but its `main`.
#![tactic(auto)]

#[cfg(test)]
mod calls;
#[cfg(test)]
mod cuts;
#[cfg(test)]
mod faults;
#[cfg(test)]
mod files;
#[cfg(test)]
mod refusals;
#[cfg(test)]
mod shown;
