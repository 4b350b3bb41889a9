//! The daylight product: the sine of the Sun's elevation at a place.
ghost use Rattle.std.specs.Prelude.{◌≡◌, T, ◌+◌, ◌<◌, ◌≤◌, ◌^◌};
ghost use Rattle.elements.specs.Offset.{IsOffset};
ghost use Rattle.earth_frame.specs.Spread.{IsSpreadWithin};
ghost use Rattle.elements.specs.Window.{most_ticks};
ghost use Rattle.orbit_sight.specs.Daylight.{CoversEachDay, CoversEachDayAlong, EnclosesEachLight};
ghost use Rattle.orbit_sight.specs.Over.{cell_of};

use crate::cell::time_over;
use earth_frame::{Turn, sidereal, sun_direction, to_earth};
use elements::Instant;
use fixed_iv::{Enc, Vec3};
use station_view::{Spot, inner_product, local_up};

/// The daylight product at a place over the closed cell from one tick of a window to another, where UT1 is `dut1_ms`
/// milliseconds more than UTC.
pub(crate) fn light_over<E: Enc>(spot: &Spot, start: Instant, dut1_ms: i32, from: u64, to: u64) -> E
    requires offset { IsOffset dut1_ms }
    requires not_empty { from < to }
    requires inside { to ≤ most_ticks }
    ensures along { CoversEachDayAlong E.Enc spot.now dut1_ms (cell_of start from to) result }
    ensures covers { CoversEachDay E.Enc spot.now start dut1_ms from to result }
    ensures narrow { T E.tells → to ≡ from + 1 → IsSpreadWithin (2 ^ 25) (E.extent result) }
{
    let t = time_over(from, to);
    daylight(spot, &sidereal(start, dut1_ms, t), &sun_direction(start, t))
}

/// The inner product of the local up with the Sun's direction, both Earth-fixed.
fn daylight<E: Enc>(spot: &Spot, turn: &Turn<E>, sun: &Vec3<E>) -> E
    ensures { EnclosesEachLight E.Enc spot.now turn.now.sin turn.now.cos sun.now result }
{
    inner_product(&local_up(spot), &to_earth(turn, sun))
}
