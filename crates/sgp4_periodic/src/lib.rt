//! The position at a time from the mean elements: long-period and short-period corrections.
#![tactic(auto)]

mod corrected;
mod ellipse;
mod frame;
mod guard;
mod latitude;
mod long_period;
mod numerals;
mod position;
mod short_period;
mod teme;

pub use teme::place;
