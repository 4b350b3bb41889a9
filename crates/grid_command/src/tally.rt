//! Counts of spans and of pairs.
ghost use Rattle.std.specs.Prelude.{◌≡◌, ◌+◌, ◌<◌, ◌^◌, [], ◌∷◌};
ghost use Rattle.grid_command.specs.Tally.{both, tally_of_spans, weight};

use span_bisect::{Mark, Span};

/// What is counted of rows of satellites at stations, with ticks of 100 microseconds.
#[derive(Clone, Copy)]
pub(crate) struct Tally {
    pub(crate) visible_spans: u64,
    pub(crate) visible_ticks: u64,
    pub(crate) hidden_spans: u64,
    pub(crate) hidden_ticks: u64,
    pub(crate) undecided_spans: u64,
    pub(crate) undecided_ticks: u64,
    pub(crate) unresolved: u64,
    pub(crate) full: u64,
    pub(crate) decays: u64,
}

impl Tally {
    /// Of no row.
    pub(crate) const NONE: Tally = Tally {
        visible_spans: 0,
        visible_ticks: 0,
        hidden_spans: 0,
        hidden_ticks: 0,
        undecided_spans: 0,
        undecided_ticks: 0,
        unresolved: 0,
        full: 0,
        decays: 0,
    };
}

/// What is counted of one span.
pub(crate) fn tally_of_span(span: Span) -> Tally
    ensures { result ≡ tally_of_spans (span ∷ []) }
{
    // An end before the beginning would be no tick, as in the definition.
    let ticks = span.to.saturating_sub(span.from);
    match span.mark {
        Mark::Yes => Tally {
            visible_spans: 1,
            visible_ticks: ticks,
            ..Tally::NONE
        },
        Mark::No => Tally {
            hidden_spans: 1,
            hidden_ticks: ticks,
            ..Tally::NONE
        },
        Mark::Undecided => Tally {
            undecided_spans: 1,
            undecided_ticks: ticks,
            ..Tally::NONE
        },
    }
}

/// The sum of two, count by count.
pub(crate) fn both(a: Tally, b: Tally) -> Tally
    requires { weight a + weight b < 2 ^ 64 }
    ensures { result ≡ both a b }
{
    Tally {
        visible_spans: a.visible_spans + b.visible_spans,
        visible_ticks: a.visible_ticks + b.visible_ticks,
        hidden_spans: a.hidden_spans + b.hidden_spans,
        hidden_ticks: a.hidden_ticks + b.hidden_ticks,
        undecided_spans: a.undecided_spans + b.undecided_spans,
        undecided_ticks: a.undecided_ticks + b.undecided_ticks,
        unresolved: a.unresolved + b.unresolved,
        full: a.full + b.full,
        decays: a.decays + b.decays,
    }
}
