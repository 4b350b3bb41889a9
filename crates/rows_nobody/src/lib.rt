//! Tests of the program but its main, over sources and outputs that never fail.
#![tactic(auto)]

#[cfg(test)]
mod runs;
