//! Tests of positions, of directions and of sunlight over cells of a window.
#![tactic(auto)]

#[cfg(test)]
mod cells;
#[cfg(test)]
mod pairs;
#[cfg(test)]
mod sunlight;
