//! Plans of files.
ghost use Rattle.std.specs.Prelude.{◌≡◌, ◌≤◌, length, IfOk, OnOk};
ghost use Rattle.span_pool.specs.Pool.{slots_used};

use catalogue::read_catalogue;
use elements::Window;
use plan_core::{Plan, Planner};
use station_file::read_stations;
use std::alloc::Global;
use std::test::Fail;

/// The slots of a plan.
pub const SLOTS: u32 = 1_048_576;

/// The text, if it is small.
fn small(text: &[u8]) -> Result<&[u8], &'static str>
    ensures { IfOk result (λ text. length text.now ≤ 16777216) }
{
    if text.len() > 16_777_216 {
        return Err("a small text");
    }
    Ok(text)
}

/// The count is not 0.
fn some(count: u32) -> Result<(), &'static str>
    ensures { OnOk result (1 ≤ count) }
{
    if count == 0 {
        return Err("none");
    }
    Ok(())
}

/// The planner of the satellites of a file, the stations of another and a window, where there are some of both.
pub fn planner_of(
    alloc: Global,
    lines: &[u8],
    stations: &[u8],
    window: Window,
    slots: u32,
) -> Result<Planner, Fail>
    requires { (1 ≤ slots) × (slots ≤ 1048576) }
    ensures used { IfOk result (λ planner. slots_used planner.pool ≡ 0) }
    ensures entries { IfOk result (λ planner. 1 ≤ length planner.entries) }
    ensures stations { IfOk result (λ planner. 1 ≤ length planner.setting.stations.rows) }
{
    let catalogue = read_catalogue(alloc, small(lines)?, window.start())?;
    some(catalogue.len())?;
    let stations = read_stations(alloc, stations)?;
    some(stations.len())?;
    Ok(Planner::make(alloc, catalogue, stations, window, slots)?)
}

/// Their plan.
pub fn plan_of(alloc: Global, lines: &[u8], stations: &[u8], window: Window) -> Result<Plan, Fail> {
    Ok(planner_of(alloc, lines, stations, window, SLOTS)?.plan())
}
