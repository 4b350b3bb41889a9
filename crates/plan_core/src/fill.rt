//! Making the rows of a plan.
ghost use Rattle.std.specs.Prelude.{◌≡◌, length, map, All, None};
ghost use Rattle.plan_core.specs.Certificate.{light_of};
ghost use Rattle.plan_core.specs.Filled.{AreFilled, ArePairsMade, IsFilled};
ghost use Rattle.plan_core.specs.Kept.{IsRowMade};
ghost use Rattle.plan_core.specs.Readers.{IsReady};
ghost use Rattle.plan_core.specs.State.{SatState, entry_of};

use crate::satellite::Satellite;
use crate::setting::Setting;
use crate::tracks::{track_light, track_pair};
use span_bisect::SpanPool;

/// Makes the row of a satellite's light.
fn fill_light(satellite: &mut Satellite, setting: &Setting, pool: &mut SpanPool, cells: &mut u64)
    requires ready { IsReady setting.now satellite.old }
    requires accepted { satellite.old.fate ≡ None }
    ensures same { satellite.new ≡ record satellite.old { lit = satellite.new.lit } }
    ensures ready { IsReady setting.now satellite.new }
    ensures accepted { satellite.new.fate ≡ None }
    ensures row { IsRowMade (light_of setting.now.window satellite.old.set) setting.now.window.resolution pool.old pool.new satellite.new.lit }
{
    let cover = track_light(satellite, setting, pool);
    *cells = cells.saturating_add(cover.cells);
    satellite.set_lit(cover.answer);
}

/// Makes the rows of a satellite at the stations, in order.
fn fill_pairs(satellite: &mut Satellite, setting: &Setting, pool: &mut SpanPool, cells: &mut u64)
    requires ready { IsReady setting.now satellite.old }
    requires accepted { satellite.old.fate ≡ None }
    ensures same { satellite.new ≡ record satellite.old { pairs = satellite.new.pairs } }
    ensures len { length satellite.new.pairs ≡ length satellite.old.pairs }
    ensures rows { ArePairsMade setting.now satellite.old.set pool.old pool.new setting.now.stations.rows satellite.new.pairs }
{
    let stations = setting.stations();
    for station in 0..stations {
        let cover = track_pair(satellite, setting, station, pool);
        *cells = cells.saturating_add(cover.cells);
        satellite.set_pair(station, cover.answer);
    }
}

/// Makes the rows of a satellite, where it is accepted: that of its light, and those of the stations in order.
fn fill(satellite: &mut Satellite, setting: &Setting, pool: &mut SpanPool, cells: &mut u64)
    requires { IsReady setting.now satellite.old }
    ensures filled { IsFilled setting.now pool.old pool.new satellite.new }
    ensures ready { IsReady setting.now satellite.new }
    ensures entry { entry_of satellite.new ≡ entry_of satellite.old }
    ensures fate { satellite.new.fate ≡ satellite.old.fate }
{
    if satellite.is_accepted() {
        fill_light(satellite, setting, pool, cells);
        fill_pairs(satellite, setting, pool, cells);
    }
}

/// Makes the rows of satellites, in order.
pub(crate) fn fill_all(
    satellites: &mut Vec<Satellite>,
    setting: &Setting,
    pool: &mut SpanPool,
    cells: &mut u64,
)
    requires { All (IsReady setting.now) satellites.old.items }
    ensures filled { AreFilled setting.now pool.old pool.new satellites.new.items }
    ensures ready { All (IsReady setting.now) satellites.new.items }
    ensures entries { map entry_of satellites.new.items ≡ map entry_of satellites.old.items }
    ensures fates { map (λ (s : SatState). s.fate) satellites.new.items ≡ map (λ (s : SatState). s.fate) satellites.old.items }
{
    for k in 0..satellites.len() {
        let satellite = &mut satellites[k];
        fill(satellite, setting, pool, cells);
    }
}
