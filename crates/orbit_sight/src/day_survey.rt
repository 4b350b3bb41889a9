//! What is certain of daylight from both ends of a cell.
ghost use Rattle.std.specs.Prelude.{◌≡◌, ◌+◌, ◌<◌, ◌≤◌};
ghost use Rattle.elements.specs.Offset.{IsOffset};
ghost use Rattle.elements.specs.Window.{most_ticks};
ghost use Rattle.orbit_sight.specs.Daylight.{EachLight};
ghost use Rattle.sgp4_model.specs.DaySolution.{IsDaylight, IsNight};
ghost use Rattle.sgp4_model.specs.Time.{Throughout};

use crate::daylight::light_over;
use crate::survey::survey_of;
use elements::Instant;
use lin_form::Lin;
use span_bisect::{Survey, Verdict};
use station_view::Spot;

/// Whether it is light (yes) or night (no) at a place from both ends of the closed cell from one tick of a window to another,
/// where UT1 is so many milliseconds more than UTC.
pub(crate) fn day_survey(spot: &Spot, start: Instant, dut1_ms: i32, from: u64, to: u64) -> Survey
    requires offset { IsOffset dut1_ms }
    requires longer { from + 1 < to }
    requires inside { to ≤ most_ticks }
    ensures left { (from ≤ result.left) × (result.left ≤ result.right) }
    ensures right { (from < result.right) × (result.right ≤ to) }
    ensures first_yes { result.first ≡ Verdict.Yes → Throughout from result.left (EachLight spot.now start dut1_ms IsDaylight) }
    ensures first_no { result.first ≡ Verdict.No → Throughout from result.left (EachLight spot.now start dut1_ms IsNight) }
    ensures last_yes { result.last ≡ Verdict.Yes → Throughout result.right to (EachLight spot.now start dut1_ms IsDaylight) }
    ensures last_no { result.last ≡ Verdict.No → Throughout result.right to (EachLight spot.now start dut1_ms IsNight) }
{
    let ticks = to - from;
    let light: Lin = light_over(spot, start, dut1_ms, from, to);
    let first = light.sign_parts(ticks);
    let last = light.reversed().sign_parts(ticks);
    survey_of(from, to, first, last)
}
