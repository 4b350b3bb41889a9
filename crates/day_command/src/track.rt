//! The track of daylight.
ghost use Rattle.std.specs.Prelude.{◌≡◌, IfOk};
ghost use Rattle.pass_words.specs.Ranges.{IsPlace};
ghost use Rattle.span_pool.specs.Pool.{slots_used};
ghost use Rattle.day_command.specs.Day.{IsDayAt, slot_limit, track_of};
ghost use Rattle.sgp4_model.specs.Certified.{IsCertified};

use crate::day::DayResult;
use elements::{Decimal, Window};
use orbit_sight::DayJudge;
use span_bisect::{SpanPool, cover};
use station_view::Spot;
use std::alloc::{AllocError, Global};

/// The most spans of one result.
const SLOTS: u32 = 1_048_576;

/// The daylight of a place over a window. All memory is taken first.
pub(crate) fn track_day(
    alloc: Global,
    lat: Decimal,
    lon: Decimal,
    window: Window,
) -> Result<DayResult, AllocError>
    requires { IsPlace lat lon }
    ensures { IfOk result (IsDayAt lat lon window) }
{
    match SpanPool::with_slots(alloc, SLOTS) {
        Ok(pool) => Ok(track_in(pool, lat, lon, window)),
        Err(AllocError) => Err(AllocError),
    }
}

/// The daylight of a place over a window, in a pool that is still empty.
fn track_in(mut pool: SpanPool, lat: Decimal, lon: Decimal, window: Window) -> DayResult
    requires place { IsPlace lat lon }
    requires slots { pool.slots ≡ slot_limit }
    requires empty { slots_used pool ≡ 0 }
    ensures window { result.window ≡ window }
    ensures certified { IsCertified (track_of lat lon window) window.resolution slot_limit 0 result.answer result.list }
{
    let spot = Spot::fix(lat, lon);
    let judge = DayJudge::make(&spot, window, 0);
    let answer = cover(&judge, window.resolution(), &mut pool).answer;
    DayResult::of(window, pool, answer)
}
