//! A judge with listed answers, which tells how far it is certain from both ends of a cell, and counts its calls.

ghost use Rattle.std.specs.Prelude.{◌≡◌, ⊤};

use crate::listed::Listed;
use span_bisect::{Judge, Survey, Verdict};

/// Of which ends of a cell a survey tells.
#[derive(Clone, Copy, PartialEq, Eq, Debug)]
pub enum Ends {
    Both,
    Left,
    Right,
}

/// Judges as `Listed` does. A survey tells of the stretches at both ends of a cell, as near to the ticks at which they
/// end as the square of the cell's length, which is counted in units of 2^shift ticks.
#[derive(Drop)]
pub struct Surveyed {
    listed: Listed,
    shift: u32,
    ends: Ends,
}

impl Surveyed {
    pub fn new(ticks: u64, stretches: &'static [(u64, Verdict)], shift: u32, ends: Ends) -> Surveyed
        ensures { result.listed.ticks ≡ ticks }
    {
        Surveyed {
            listed: Listed::new(ticks, stretches),
            shift,
            ends,
        }
    }

    /// How many verdicts were asked for.
    pub fn calls(&self) -> u64 {
        self.listed.calls()
    }

    /// How far from the end of a stretch a survey of a cell of this length stays.
    fn blur(&self, length: u64) -> u64 {
        let units = length >> self.shift.min(63);
        units.saturating_mul(units)
    }
}

impl Judge for Surveyed {
    ghost tick_count = { λ j. j.listed.ticks };

    ghost yes_at = { λ _ _. ⊤ };

    ghost no_at = { λ _ _. ⊤ };

    ghost grazes_at = { λ _ _. ⊤ };

    ghost sinks_at = { λ _ _. ⊤ };

    fn ticks(&self) -> u64 {
        self.listed.ticks()
    }

    fn judge(&self, from: u64, to: u64) -> Verdict {
        self.listed.judge(from, to)
    }

    fn survey(&self, from: u64, to: u64) -> Survey {
        self.listed.count();
        let (_, end, first) = self.listed.stretch_at(from);
        let (start, _, last) = self.listed.stretch_at(to - 1);
        let blur = self.blur(to - from);
        let left = if self.ends == Ends::Right {
            from
        } else if end < to {
            end.saturating_sub(blur).clamp(from, to)
        } else {
            to
        };
        Survey {
            first: if self.ends == Ends::Right {
                Verdict::Unsure
            } else {
                first
            },
            left,
            right: start.saturating_add(blur).clamp(from + 1, to).max(left),
            last: if self.ends == Ends::Left {
                Verdict::Unsure
            } else {
                last
            },
        }
    }
}
