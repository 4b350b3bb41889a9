//! On which side of a station's mask a satellite is over a cell of a window.
ghost use Rattle.std.specs.Prelude.{◌≡◌, ◌+◌, ◌<◌, ◌≤◌, IsSome, T};
ghost use Rattle.elements.specs.Offset.{IsOffset};
ghost use Rattle.elements.specs.Elements.{record_of_elements};
ghost use Rattle.orbit_sight.specs.Over.{IsNearOver};
ghost use Rattle.orbit_sight.specs.Pairs.{track_of};
ghost use Rattle.sgp4_model.specs.Time.{Throughout};
ghost use Rattle.station_view.specs.Lengths.{bounds_of};

use crate::craft::Craft;
use crate::scene::scene_over;
use elements::Window;
use fixed_iv::{Enc, Iv, Side};
use station_view::{Lengths, Station, judge_lengths, lengths};

/// On which side of the mask every solution of a satellite and a station is over the closed cell from one tick of a window to
/// another, where UT1 is so many milliseconds more than UTC. None where no enclosure of the position is found.
pub(crate) fn side_over<E: Enc>(
    craft: &Craft,
    station: &Station,
    window: &Window,
    dut1_ms: i32,
    from: u64,
    to: u64,
) -> Option<Side>
    requires not_far { IsNearOver (record_of_elements craft.now) window.now.start window.now.ticks }
    requires offset { IsOffset dut1_ms }
    requires not_empty { from < to }
    requires inside { to ≤ window.now.ticks }
    ensures yes { result ≡ Some Side.Yes → Throughout from to (track_of craft.now station.now window.now dut1_ms).yes }
    ensures no { result ≡ Some Side.No → Throughout from to (track_of craft.now station.now window.now dut1_ms).no }
    ensures unsure { T E.tells → to ≡ from + 1 → result ≡ Some Side.Unsure → Throughout from to (track_of craft.now station.now window.now dut1_ms).grazes }
    ensures least { T E.tells → to ≡ from + 1 → IsSome result }
{
    let scene = scene_over::<E>(craft, window, dut1_ms, from, to)?;
    let seen = lengths(station, &scene.turn, &scene.position);
    Some(judge_lengths(&ends_of(&seen), &station.mask))
}

/// The bounds of enclosed lengths.
fn ends_of<E: Enc>(seen: &Lengths<E>) -> Lengths<Iv>
    ensures { result ≡ bounds_of E.Enc seen.now }
{
    Lengths {
        east: seen.east.bounds(),
        north: seen.north.bounds(),
        up: seen.up.bounds(),
        range: seen.range.bounds(),
    }
}
