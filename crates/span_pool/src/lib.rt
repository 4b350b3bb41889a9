//! Lists of spans in a region of slots that is taken once.
#![tactic(auto)]

mod pool;
mod slot;
mod track;

pub use pool::{Full, SpanPool};
pub use sgp4_model::{Mark, Span};
pub use std::alloc::AllocError as OutOfMemory;
pub use track::Track;
