//! A judge with listed answers, which counts its calls.

ghost use Rattle.std.specs.Prelude.{◌≡◌, ⊤};

use span_bisect::{Judge, Verdict};
use std::cell::Cell;

/// Answers the verdict of the stretch that a cell lies in, and `Unsure` of a cell that lies in none. A stretch is its
/// end and its verdict; it begins where the one before it ends. Of a cell of more than one tick in a stretch that sinks
/// it is `Unsure`.
#[derive(Drop)]
pub struct Listed {
    stretches: &'static [(u64, Verdict)],
    ticks: u64,
    calls: Cell<u64>,
}

impl Listed {
    pub fn new(ticks: u64, stretches: &'static [(u64, Verdict)]) -> Listed
        ensures { result.ticks ≡ ticks }
    {
        Listed {
            stretches,
            ticks,
            calls: Cell::new(0),
        }
    }

    /// How many verdicts were asked for.
    pub fn calls(&self) -> u64 {
        self.calls.get()
    }

    /// Counts a call.
    pub fn count(&self) {
        self.calls.set(self.calls.get().saturating_add(1));
    }

    /// The stretch that a tick lies in: where it begins, where it ends, and its verdict.
    pub fn stretch_at(&self, tick: u64) -> (u64, u64, Verdict) {
        let mut start = 0;
        for (end, verdict) in self.stretches {
            if tick < *end {
                return (start, *end, *verdict);
            }
            start = *end;
        }
        (start, u64::MAX, Verdict::Unsure)
    }

    /// The verdict of the stretch that a cell lies in.
    fn listed(&self, from: u64, to: u64) -> Verdict {
        let (start, end, verdict) = self.stretch_at(from);
        if start <= from && to <= end {
            verdict
        } else {
            Verdict::Unsure
        }
    }
}

impl Judge for Listed {
    ghost tick_count = { λ j. j.ticks };

    ghost yes_at = { λ _ _. ⊤ };

    ghost no_at = { λ _ _. ⊤ };

    ghost grazes_at = { λ _ _. ⊤ };

    ghost sinks_at = { λ _ _. ⊤ };

    fn ticks(&self) -> u64 {
        self.ticks
    }

    fn judge(&self, from: u64, to: u64) -> Verdict {
        self.count();
        match self.listed(from, to) {
            Verdict::Sinks => if to - from == 1 {
                Verdict::Sinks
            } else {
                Verdict::Unsure
            },
            verdict => verdict,
        }
    }
}
