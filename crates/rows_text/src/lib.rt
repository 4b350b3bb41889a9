//! Tests of printed lines.
#![tactic(auto)]

#[cfg(test)]
mod daylight;
#[cfg(test)]
mod places;
#[cfg(test)]
mod refusals;
#[cfg(test)]
mod satellites;
#[cfg(test)]
mod sets;
#[cfg(test)]
mod stations;
