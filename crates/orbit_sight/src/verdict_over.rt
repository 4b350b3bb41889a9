//! What is said of a satellite and a station over a cell of a window.
ghost use Rattle.std.specs.Prelude.{◌≡◌, IfNone, IfSome, IsSome, T, ◌+◌, ◌<◌, ◌≤◌};
ghost use Rattle.elements.specs.Offset.{IsOffset};
ghost use Rattle.elements.specs.Elements.{record_of_elements};
ghost use Rattle.orbit_sight.specs.Over.{IsNearOver};
ghost use Rattle.orbit_sight.specs.Pairs.{HoldsEachSight, track_of};
ghost use Rattle.sgp4_model.specs.Numerals.{decimal};
ghost use Rattle.sgp4_model.specs.Time.{Somewhere, Throughout};
ghost use Rattle.station_view.specs.Judged.{IsNarrowSight};

use crate::craft::Craft;
use crate::side_over::side_over;
use crate::sight_over::sight_over;
use crate::verdict::verdict_of;
use elements::Window;
use enc_plain::Plain;
use fixed_iv::{Enc, Iv};
use span_bisect::Verdict;
use station_view::{Sight, Station};

/// What one enclosure says of the closed cell. It is of use on a least cell where it tells its spread.
pub(crate) fn verdict_over<E: Enc>(
    craft: &Craft,
    station: &Station,
    window: &Window,
    dut1_ms: i32,
    from: u64,
    to: u64,
) -> Verdict
    requires not_far { IsNearOver (record_of_elements craft.now) window.now.start window.now.ticks }
    requires offset { IsOffset dut1_ms }
    requires not_empty { from < to }
    requires inside { to ≤ window.now.ticks }
    ensures yes { result ≡ Verdict.Yes → Throughout from to (track_of craft.now station.now window.now dut1_ms).yes }
    ensures no { result ≡ Verdict.No → Throughout from to (track_of craft.now station.now window.now dut1_ms).no }
    ensures unsure { T E.tells → result ≡ Verdict.Unsure → to ≡ from + 1 → Throughout from to (track_of craft.now station.now window.now dut1_ms).grazes }
    ensures sinks { T E.tells → result ≡ Verdict.Sinks → (to ≡ from + 1) × Somewhere from to (track_of craft.now station.now window.now dut1_ms).sinks }
{
    let side = side_over::<E>(craft, station, window, dut1_ms, from, to);
    verdict_of(side, to - from == 1)
}

/// The direction over the closed least cell that begins at a tick. None only where some record of the set sinks in it.
pub(crate) fn sight_at(
    craft: &Craft,
    station: &Station,
    window: &Window,
    dut1_ms: i32,
    tick: u64,
) -> Option<Sight<Iv>>
    requires not_far { IsNearOver (record_of_elements craft.now) window.now.start window.now.ticks }
    requires offset { IsOffset dut1_ms }
    requires inside { tick < window.now.ticks }
    ensures holds { IfSome result (HoldsEachSight craft.now station.now window.now dut1_ms tick) }
    ensures narrow { IfSome result (λ sight. IsNarrowSight (decimal 1 3) sight station.now.mask) }
    ensures none { IfNone result (Somewhere tick (tick + 1) (track_of craft.now station.now window.now dut1_ms).sinks) }
    ensures found { IsSome result }
{
    let ticks = window.ticks();
    prove!(tick < ticks);
    let sight = sight_over::<Plain>(craft, station, window, dut1_ms, tick, tick + 1)?;
    Some(Sight {
        east: sight.east.bounds(),
        north: sight.north.bounds(),
        up: sight.up.bounds(),
    })
}
