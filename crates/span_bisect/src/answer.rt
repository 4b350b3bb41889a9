//! The answer for a track.

use span_pool::Track;

/// What became of a track. Ends count ticks.
#[derive(Debug, Drop)]
pub enum TrackAnswer {
    /// Its spans tile the window.
    Spans(Track),
    /// It grazes throughout this stretch, which is one tick longer than the resolution.
    Unresolved { from: u64, to: u64 },
    /// The span that begins here found no free slot.
    Full { at: u64 },
    /// It sinks in the tick that begins here.
    Decays { at: u64 },
}

/// The answer for a track, and how many verdicts it took.
#[derive(Debug, Drop)]
pub struct Cover {
    pub answer: TrackAnswer,
    pub cells: u64,
}
