//! A run of the command.
ghost use Rattle.std.specs.Prelude.{◌≡◌, IfOk};
ghost use Rattle.plan_command.specs.Parts.{plan_text};
ghost use Rattle.plan_command.specs.Planned.{IsPlanFor, plan_of, setting_of};
ghost use Rattle.plan_core.specs.Certificate.{IsPlanOf};
ghost use Rattle.plan_core.specs.State.{plan_record};
ghost use Rattle.plan_text.specs.Plan.{most_spans};
ghost use Rattle.run_ends.specs.Endings.{IsForMemory, WithProduct};
ghost use Rattle.run_ends.specs.Printed.{IsWritten};
ghost use Rattle.run_ends.specs.Runs.{IsRunOf};

use crate::print::print_plan;
use crate::tables::tables_of;
use catalogue::Catalogue;
use elements::{OutOfMemory, Window};
use outside_io::{Shelf, Sink};
use plan_core::{Plan, Planner};
use run_ends::{Ending, Refusal, ended, load_catalogue, load_stations, refuse};
use station_file::Stations;
use std::alloc::Global;

/// The most spans of a plan.
const SLOTS: u32 = 1_048_576;

/// Plans the satellites of a file, by their sets that are nearest to the window's start, over the stations of a file, and
/// writes the plan. All memory is taken before the first line is put.
pub fn run_plan<S: Shelf, K: Sink>(
    alloc: Global,
    catalogue: &[u8],
    stations: &[u8],
    window: Window,
    shelf: &mut S,
    out: &mut K,
) -> Ending<Plan>
    requires catalogue { S.allows shelf.old catalogue.now }
    requires stations { S.allows shelf.old stations.now }
    ensures { IsRunOf S.Shelf K.Sink (plan_of catalogue.now stations.now window) result shelf.old shelf.new out.old out.new }
{
    match load_catalogue(alloc, catalogue, window.start(), shelf) {
        Ok(satellites) => match load_stations(alloc, stations, shelf) {
            Ok(places) => write_plan(alloc, satellites, places, window, out),
            Err(refusal) => refuse(refusal, out),
        },
        Err(refusal) => refuse(refusal, out),
    }
}

/// Plans satellites over stations, and writes the plan.
fn write_plan<K: Sink>(
    alloc: Global,
    satellites: Catalogue,
    places: Stations,
    window: Window,
    out: &mut K,
) -> Ending<Plan>
    ensures product { WithProduct (IsPlanFor satellites places window) result }
    ensures written { IsWritten K.Sink plan_text result out.old out.new }
    ensures cause { IsForMemory result }
{
    match planned(alloc, satellites, places, window) {
        Ok(plan) => write_planned(alloc, plan, out),
        Err(OutOfMemory) => refuse(Refusal::OutOfMemory, out),
    }
}

/// Writes a plan.
fn write_planned<K: Sink>(alloc: Global, plan: Plan, out: &mut K) -> Ending<Plan>
    ensures product { WithProduct (λ other. other ≡ plan) result }
    ensures written { IsWritten K.Sink plan_text result out.old out.new }
    ensures cause { IsForMemory result }
{
    match tables_of(alloc, &plan) {
        Ok(tables) => {
            let printed = print_plan(&plan, tables.as_slice(), out);
            ended(plan, printed)
        }
        Err(OutOfMemory) => refuse(Refusal::OutOfMemory, out),
    }
}

/// The plan of satellites over stations, with 1,048,576 slots for spans. Stations are in their ranges.
pub fn planned(
    alloc: Global,
    satellites: Catalogue,
    places: Stations,
    window: Window,
) -> Result<Plan, OutOfMemory>
    ensures { IfOk result (IsPlanFor satellites places window) }
{
    let _stations = places.len();
    certified(alloc, satellites, places, window)
}

/// The plan of satellites over stations, certified.
fn certified(
    alloc: Global,
    satellites: Catalogue,
    places: Stations,
    window: Window,
) -> Result<Plan, OutOfMemory>
    ensures { IfOk result (λ plan. IsPlanOf most_spans satellites (setting_of places window) (plan_record plan)) }
{
    match Planner::make(alloc, satellites, places, window, SLOTS) {
        Ok(planner) => Ok(planner.plan()),
        Err(OutOfMemory) => Err(OutOfMemory),
    }
}
