//! The tracks of a satellite: of its light, and at a station.
ghost use Rattle.std.specs.Prelude.{◌≡◌, ◌<◌, length, None};
ghost use Rattle.elements.specs.Elements.{record_of_elements};
ghost use Rattle.elements.specs.Window.{tick_instant};
ghost use Rattle.sgp4_model.specs.Grazing.{pair_track};
ghost use Rattle.sgp4_model.specs.LitSolution.{lit_track};
ghost use Rattle.sgp4_motion.specs.Fate.{IsFar};
ghost use Rattle.span_bisect.specs.Answer.{IsPoolAfter};
ghost use Rattle.elements.specs.Offset.{IsOffset};
ghost use Rattle.station_file.specs.Rows.{AreStations};
ghost use Rattle.orbit_sight.specs.Scene.{record_of_station as place_record};
ghost use Rattle.plan_core.specs.Answered.{IsSightMade};
ghost use Rattle.plan_core.specs.Certificate.{light_of};
ghost use Rattle.plan_core.specs.Kept.{IsKept, IsRowMade};
ghost use Rattle.plan_core.specs.Readers.{IsReady};

use crate::satellite::Satellite;
use crate::setting::Setting;
use elements::Window;
use orbit_sight::{Craft, LitJudge, PairJudge};
use span_bisect::{Cover, SpanPool, cover};
use station_view::Station;

/// The spans of a craft's light, in slots of the pool.
fn cover_light(craft: &Craft, window: Window, pool: &mut SpanPool) -> Cover
    requires { ¬ IsFar (record_of_elements craft.now) window.start (tick_instant window.start window.ticks) }
    ensures { IsRowMade (lit_track (record_of_elements craft.now) window.start window.ticks) window.resolution pool.old pool.new result.answer }
{
    let judge = LitJudge::make(craft, window);
    cover(&judge, window.resolution(), pool)
}

/// The spans of a craft at a station, in slots of the pool.
fn cover_pair(
    craft: &Craft,
    station: &Station,
    window: Window,
    dut1_ms: i32,
    pool: &mut SpanPool,
) -> Cover
    requires near { ¬ IsFar (record_of_elements craft.now) window.start (tick_instant window.start window.ticks) }
    requires offset { IsOffset dut1_ms }
    ensures { IsRowMade (pair_track (record_of_elements craft.now) (place_record station.now) window.start dut1_ms window.ticks) window.resolution pool.old pool.new result.answer }
{
    let judge = PairJudge::make(craft, station, window, dut1_ms);
    cover(&judge, window.resolution(), pool)
}

/// The spans of a satellite's light.
pub(crate) fn track_light(satellite: &Satellite, setting: &Setting, pool: &mut SpanPool) -> Cover
    requires ready { IsReady setting.now satellite.now }
    requires accepted { satellite.now.fate ≡ None }
    ensures row { IsRowMade (light_of setting.now.window satellite.now.set) setting.now.window.resolution pool.old pool.new result.answer }
    ensures pool { IsPoolAfter pool.old pool.new result.answer }
    ensures kept { IsKept pool.old pool.new }
{
    match satellite.craft() {
        Some(craft) => cover_light(craft, setting.window(), pool),
        None => unreachable!(),
    }
}

/// The spans of a satellite at a station.
pub(crate) fn track_pair(
    satellite: &Satellite,
    setting: &Setting,
    station: u32,
    pool: &mut SpanPool,
) -> Cover
    requires ready { IsReady setting.now satellite.now }
    requires accepted { satellite.now.fate ≡ None }
    requires station { station < length setting.now.stations.rows }
    ensures row { IsSightMade setting.now satellite.now station pool.old pool.new result.answer }
    ensures stations { AreStations setting.now.stations }
    ensures pool { IsPoolAfter pool.old pool.new result.answer }
    ensures kept { IsKept pool.old pool.new }
{
    match satellite.craft() {
        Some(craft) => {
            let place = setting.station(station);
            cover_pair(craft, place, setting.window(), setting.dut1_ms(), pool)
        }
        None => unreachable!(),
    }
}
