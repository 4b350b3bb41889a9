//! The time over a cell of a window.
ghost use Rattle.std.specs.Prelude.{◌≡◌, T, ◌+◌, ◌<◌, ◌≤◌, pos};
ghost use Rattle.exact.specs.Rational.{ℚ, of_int};
ghost use Rattle.earth_frame.specs.Spread.{IsSpreadWithin, IsWithinOne};
ghost use Rattle.elements.specs.Window.{most_ticks};
ghost use Rattle.fixed_iv.specs.Place.{Place, on_line};
ghost use Rattle.orbit_sight.specs.Cell.{CoversSomewhere, IsTickTime, time_of_place};
ghost use Rattle.sgp4_model.specs.Time.{IsWithin};

use fixed_iv::{Enc, Iv};

/// The parts of a unit of time that a tick is counted in: a tick is 2^28 parts of 9375 * 2^48.
const PARTS: u64 = 1 << 28;

/// The time over the closed cell from one tick to another, in units of 16,384 minutes from the window's start.
pub(crate) fn time_over<E: Enc>(from: u64, to: u64) -> E
    requires not_empty { from < to }
    requires inside { to ≤ most_ticks }
    ensures along { (h : Place) → E.covers result h (time_of_place (on_line h (of_int (pos from)) (of_int (pos to)))) }
    ensures covers { (place : ℚ) → IsWithin from to place → CoversSomewhere E.covers result (time_of_place place) }
    ensures within { T E.tells → IsWithinOne (E.extent result) }
    ensures narrow { T E.tells → to ≡ from + 1 → IsSpreadWithin 28640 (E.extent result) }
{
    E::line(tick_time(from), tick_time(to))
}

/// A tick in units of 16,384 minutes from the window's start.
fn tick_time(tick: u64) -> Iv
    requires { tick ≤ most_ticks }
    ensures { IsTickTime tick result }
{
    let parts = tick * PARTS;
    Iv::from_ends((parts / 9375) as i64, ((parts + 9374) / 9375) as i64)
}
