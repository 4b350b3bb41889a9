//! What is certain of a satellite and a station from both ends of a cell.
ghost use Rattle.std.specs.Prelude.{◌≡◌, ◌+◌, ◌<◌, ◌≤◌};
ghost use Rattle.elements.specs.Elements.{record_of_elements};
ghost use Rattle.elements.specs.Offset.{IsOffset};
ghost use Rattle.orbit_sight.specs.Over.{IsNearOver};
ghost use Rattle.orbit_sight.specs.Pairs.{track_of};
ghost use Rattle.sgp4_model.specs.Time.{Throughout};

use crate::craft::Craft;
use crate::scene::scene_over;
use crate::survey::survey_of;
use elements::Window;
use lin_form::{Lin, Parts};
use span_bisect::{Survey, Verdict};
use station_view::{Station, lengths, mask_parts, reversed};

/// On which side of the mask every solution of a satellite and a station is from both ends of the closed cell from one tick of a
/// window to another, where UT1 is so many milliseconds more than UTC.
pub(crate) fn pair_survey(
    craft: &Craft,
    station: &Station,
    window: &Window,
    dut1_ms: i32,
    from: u64,
    to: u64,
) -> Survey
    requires not_far { IsNearOver (record_of_elements craft.now) window.now.start window.now.ticks }
    requires offset { IsOffset dut1_ms }
    requires longer { from + 1 < to }
    requires inside { to ≤ window.now.ticks }
    ensures left { (from ≤ result.left) × (result.left ≤ result.right) }
    ensures right { (from < result.right) × (result.right ≤ to) }
    ensures first_yes { result.first ≡ Verdict.Yes → Throughout from result.left (track_of craft.now station.now window.now dut1_ms).yes }
    ensures first_no { result.first ≡ Verdict.No → Throughout from result.left (track_of craft.now station.now window.now dut1_ms).no }
    ensures last_yes { result.last ≡ Verdict.Yes → Throughout result.right to (track_of craft.now station.now window.now dut1_ms).yes }
    ensures last_no { result.last ≡ Verdict.No → Throughout result.right to (track_of craft.now station.now window.now dut1_ms).no }
{
    let ticks = to - from;
    match scene_over::<Lin>(craft, window, dut1_ms, from, to) {
        Some(scene) => {
            let seen = lengths(station, &scene.turn, &scene.position);
            let first = mask_parts(&seen, &station.mask, ticks);
            let last = mask_parts(&reversed(&seen), &station.mask, ticks);
            survey_of(from, to, first, last)
        }
        None => survey_of(from, to, Parts { yes: 0, no: 0 }, Parts { yes: 0, no: 0 }),
    }
}
