//! What a track is read from: a judge of closed cells.

ghost use Rattle.std.specs.Prelude.{ℕ, ◌≡◌, ◌+◌, ◌<◌, ◌≤◌};
ghost use Rattle.exact.specs.Rational.{ℚ};
ghost use Rattle.sgp4_model.specs.Time.{Somewhere, Throughout};

/// What a judge says of a closed cell.
#[derive(Clone, Copy, PartialEq, Eq, Debug)]
pub enum Verdict {
    /// Yes holds throughout.
    Yes,
    /// No holds throughout.
    No,
    /// Neither is certain.
    Unsure,
    /// It sinks: nothing is said from here on.
    Sinks,
}

/// What a judge says of a closed cell from both its ends: `first` of the part from its start to `left`, `last` of the
/// part from `right` to its end. `Yes` and `No` hold throughout the part; the others say nothing of any part. Ends count
/// ticks.
#[derive(Clone, Copy, PartialEq, Eq, Debug)]
pub struct Survey {
    pub first: Verdict,
    pub left: u64,
    pub right: u64,
    pub last: Verdict,
}

/// Something that tells, of each closed cell of its window, what certainly holds throughout. Ticks count 100
/// microseconds from the window's start. The meanings speak of each place of the window, whole or not.
pub trait Judge {
    ghost tick_count: { Self → ℕ };

    ghost yes_at: { Self → ℚ → Type 0 };

    ghost no_at: { Self → ℚ → Type 0 };

    ghost grazes_at: { Self → ℚ → Type 0 };

    ghost sinks_at: { Self → ℚ → Type 0 };

    /// How many ticks the window has.
    fn ticks(&self) -> u64
        ensures { result ≡ tick_count self.now };

    /// What certainly holds throughout the closed cell. `Unsure` says that it grazes only of a cell of one tick. `Sinks`
    /// comes of such a cell alone, and says that it sinks at some place of it.
    fn judge(&self, from: u64, to: u64) -> Verdict
        requires not_empty { from < to }
        requires inside { to ≤ tick_count self.now }
        ensures yes { result ≡ Verdict.Yes → Throughout from to (yes_at self.now) }
        ensures no { result ≡ Verdict.No → Throughout from to (no_at self.now) }
        ensures unsure { result ≡ Verdict.Unsure → to ≡ from + 1 → Throughout from to (grazes_at self.now) }
        ensures sinks { result ≡ Verdict.Sinks → (to ≡ from + 1) × Somewhere from to (sinks_at self.now) };

    /// What certainly holds from both ends of a closed cell of more than one tick. It counts as one verdict. A judge
    /// that knows of whole cells alone keeps this body.
    fn survey(&self, from: u64, to: u64) -> Survey
        requires longer { from + 1 < to }
        requires inside { to ≤ tick_count self.now }
        ensures left { (from ≤ result.left) × (result.left ≤ result.right) }
        ensures right { (from < result.right) × (result.right ≤ to) }
        ensures first_yes { result.first ≡ Verdict.Yes → Throughout from result.left (yes_at self.now) }
        ensures first_no { result.first ≡ Verdict.No → Throughout from result.left (no_at self.now) }
        ensures last_yes { result.last ≡ Verdict.Yes → Throughout result.right to (yes_at self.now) }
        ensures last_no { result.last ≡ Verdict.No → Throughout result.right to (no_at self.now) }
    {
        Survey {
            first: self.judge(from, to),
            left: to,
            right: to,
            last: Verdict::Unsure,
        }
    }
}
