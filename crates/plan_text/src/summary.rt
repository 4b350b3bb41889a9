//! The numbers of a plan.

/// What is counted of a plan. Ticks are those of 100 microseconds; spans and pairs are those of the pair rows.
#[derive(Clone, Copy, Debug, PartialEq, Eq)]
pub struct Summary {
    /// The satellites.
    pub sats: u64,
    /// Those that are refused.
    pub refused: u64,
    /// The visible spans.
    pub visible_spans: u64,
    /// Their ticks.
    pub visible_ticks: u64,
    /// The hidden spans.
    pub hidden_spans: u64,
    /// Their ticks.
    pub hidden_ticks: u64,
    /// The undecided spans.
    pub undecided_spans: u64,
    /// Their ticks.
    pub undecided_ticks: u64,
    /// The pairs that are unresolved.
    pub unresolved: u64,
    /// The pairs that found no room.
    pub full: u64,
    /// The pairs of which the model may sink.
    pub decays: u64,
    /// The verdicts that were asked for in the whole plan.
    pub cells: u64,
}
