//! The direction at which a station sees a satellite over a cell of a window.
ghost use Rattle.std.specs.Prelude.{◌≡◌, ◌+◌, ◌<◌, ◌≤◌, IfSome, IsSome, T};
ghost use Rattle.elements.specs.Offset.{IsOffset};
ghost use Rattle.elements.specs.Elements.{record_of_elements};
ghost use Rattle.orbit_sight.specs.Over.{IsNearOver, cell_of};
ghost use Rattle.sgp4_model.specs.Numerals.{decimal};
ghost use Rattle.station_view.specs.Fine.{sight_bounds};
ghost use Rattle.station_view.specs.Judged.{IsNarrowSight};
ghost use Rattle.orbit_sight.specs.Scene.{CoversEachSolution, record_of_station};

use crate::craft::Craft;
use crate::scene::scene_over;
use elements::Window;
use fixed_iv::Enc;
use station_view::{Sight, Station, sight};

/// The direction at which a station sees a satellite over the closed cell from one tick of a window to another, where UT1 is so
/// many milliseconds more than UTC.
pub(crate) fn sight_over<E: Enc>(
    craft: &Craft,
    station: &Station,
    window: &Window,
    dut1_ms: i32,
    from: u64,
    to: u64,
) -> Option<Sight<E>>
    requires not_far { IsNearOver (record_of_elements craft.now) window.now.start window.now.ticks }
    requires offset { IsOffset dut1_ms }
    requires not_empty { from < to }
    requires inside { to ≤ window.now.ticks }
    ensures covers { IfSome result (CoversEachSolution (record_of_elements craft.now) (record_of_station station.now) dut1_ms (cell_of window.now.start from to) E.Enc) }
    ensures narrow { T E.tells → to ≡ from + 1 → IfSome result (λ sight. IsNarrowSight (decimal 1 3) (sight_bounds E.Enc sight) station.now.mask) }
    ensures least { T E.tells → to ≡ from + 1 → IsSome result }
{
    let scene = scene_over(craft, window, dut1_ms, from, to)?;
    sight(station, &scene.turn, &scene.position)
}
