//! The pieces of a cell that was surveyed.
ghost use Rattle.std.specs.Prelude.{◌≡◌, ◌+◌, ◌<◌, ◌≤◌, IfSome};
ghost use Rattle.span_bisect.specs.Answer.{track_of};
ghost use Rattle.span_bisect.specs.Pieces.{IsCertain, IsPieces};

use crate::judge::{Judge, Verdict};
use crate::stack::{Cell, reach};
use span_pool::{Mark, Span};

/// A cell of more than one tick in three pieces: a part that is certain, if there is one; the next cell, at most half as
/// long, up to `cut`; and what is left behind it.
#[derive(Clone, Copy)]
pub(crate) struct Pieces {
    pub(crate) first: Option<Span>,
    pub(crate) cut: u64,
    pub(crate) rest: Cell,
}

/// Surveys a cell. What is uncertain between its ends is cut in two halves where it is longer than half of the cell.
pub(crate) fn cut_cell<J: Judge>(judge: &J, at: u64, to: u64) -> Pieces
    requires longer { at + 1 < to }
    requires inside { to ≤ J.tick_count judge.now }
    ensures { IsPieces (track_of J.Judge judge.now) at to result }
{
    let seen = judge.survey(at, to);
    let first = certain_part(seen.first, at, seen.left);
    let last = certain_part(seen.last, seen.right, to);
    let left = reach(at, first);
    let right = match last {
        Some(part) => part.from,
        None => to,
    };
    let cut = if right - left > (to - at) / 2 {
        left + (right - left) / 2
    } else {
        right
    };
    Pieces {
        first,
        cut,
        rest: Cell { to: right, last },
    }
}

/// The part between two ticks, where the verdict on it is certain and it is not empty.
fn certain_part(verdict: Verdict, from: u64, to: u64) -> Option<Span>
    requires order { from ≤ to }
    ensures { IfSome result (IsCertain verdict from to) }
{
    let mark = match verdict {
        Verdict::Yes => Mark::Yes,
        Verdict::No => Mark::No,
        Verdict::Unsure | Verdict::Sinks => return None,
    };
    if from < to {
        Some(Span { mark, from, to })
    } else {
        None
    }
}
