//! Certified spans of a track, from verdicts on closed cells.
#![tactic(auto)]

mod answer;
mod bisect;
mod judge;
mod pieces;
mod stack;

pub use answer::{Cover, TrackAnswer};
pub use bisect::cover;
pub use judge::{Judge, Survey, Verdict};
pub use span_pool::{Mark, Span, SpanPool, Track};
