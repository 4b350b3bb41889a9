//! What a side says of a cell.
ghost use Rattle.std.specs.Prelude.{◌≡◌, IfNone, IfSome, None, Some, false, true};

use fixed_iv::Side;
use span_bisect::Verdict;

/// What a side says of a cell. Where there is none, a least cell sinks.
pub(crate) fn verdict_of(side: Option<Side>, least: bool) -> Verdict
    ensures yes { result ≡ Verdict.Yes → side ≡ Some Side.Yes }
    ensures no { result ≡ Verdict.No → side ≡ Some Side.No }
    ensures unsure { result ≡ Verdict.Unsure → IfSome side (λ s. s ≡ Side.Unsure) × IfNone side (least ≡ false) }
    ensures sinks { result ≡ Verdict.Sinks → (side ≡ None) × (least ≡ true) }
{
    match side {
        Some(Side::Yes) => Verdict::Yes,
        Some(Side::No) => Verdict::No,
        Some(Side::Unsure) => Verdict::Unsure,
        None => {
            if least {
                Verdict::Sinks
            } else {
                Verdict::Unsure
            }
        }
    }
}
