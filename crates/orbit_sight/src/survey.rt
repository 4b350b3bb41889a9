//! What certainly holds from both ends of a cell.
ghost use Rattle.std.specs.Prelude.{◌≡◌, ◌+◌, ◌-◌, ◌<◌, ◌≤◌, ◌⊎◌};

use lin_form::Parts;
use span_bisect::{Survey, Verdict};

/// The survey of a cell, by what is certain of its ticks from the start on, and of those from the end back.
pub(crate) fn survey_of(from: u64, to: u64, first: Parts, last: Parts) -> Survey
    requires longer { from + 1 < to }
    requires first { (first.yes ≤ to - from) × (first.no ≤ to - from) }
    requires last { (last.yes ≤ to - from) × (last.no ≤ to - from) }
    ensures left { (from ≤ result.left) × (result.left ≤ result.right) }
    ensures right { (from < result.right) × (result.right ≤ to) }
    ensures first_yes { result.first ≡ Verdict.Yes → (0 < first.yes) × (result.left ≡ from + first.yes) }
    ensures first_no { result.first ≡ Verdict.No → (0 < first.no) × (result.left ≡ from + first.no) }
    ensures last_yes { result.last ≡ Verdict.Yes → (0 < last.yes) × (to ≤ result.right + last.yes) }
    ensures last_no { result.last ≡ Verdict.No → (0 < last.no) × (to ≤ result.right + last.no) }
{
    let (first, ticks) = certain(first);
    let (last, back) = certain(last);
    let left = from + ticks;
    Survey {
        first,
        left,
        right: (to - back).max(left).max(from + 1),
        last,
    }
}

/// The answer that is certain, and of how many ticks.
fn certain(parts: Parts) -> (Verdict, u64)
    ensures yes { result.0 ≡ Verdict.Yes → (0 < parts.yes) × (result.1 ≡ parts.yes) }
    ensures no { result.0 ≡ Verdict.No → (0 < parts.no) × (result.1 ≡ parts.no) }
    ensures most { (result.1 ≤ parts.yes) ⊎ (result.1 ≤ parts.no) }
{
    if parts.yes > 0 {
        (Verdict::Yes, parts.yes)
    } else if parts.no > 0 {
        (Verdict::No, parts.no)
    } else {
        (Verdict::Unsure, 0)
    }
}
