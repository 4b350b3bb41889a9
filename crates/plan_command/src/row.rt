//! The printing of the rows of a plan. Each line is one put.
ghost use Rattle.std.specs.Prelude.{◌<◌, length, slice_get};
ghost use Rattle.plan_command.specs.Parts.{pairs_text, rows_text, satellite_text};
ghost use Rattle.run_ends.specs.Printed.{IsPrinted};

use crate::light::print_light;
use crate::pair::print_pair;
use outside_io::{Failed, Sink};
use plan_core::Plan;

/// Puts the rows of each satellite that is accepted.
pub(crate) fn print_rows<K: Sink>(plan: &Plan, out: &mut K) -> Result<(), Failed>
    ensures { IsPrinted K.Sink result out.old out.new (rows_text plan.now) }
{
    for sat in 0..plan.sats() {
        print_satellite(plan, sat, out)?;
    }
    Ok(())
}

/// Puts the rows of a satellite, if it is accepted.
fn print_satellite<K: Sink>(plan: &Plan, sat: u32, out: &mut K) -> Result<(), Failed>
    requires { sat < length plan.now.satellites }
    ensures { IsPrinted K.Sink result out.old out.new (satellite_text plan.now (slice_get plan.now.satellites sat)) }
{
    let number = plan.sat(sat).number;
    match plan.lit_row(sat) {
        Some(light) => {
            print_light(plan, number, light, out)?;
            print_pairs(plan, sat, number, out)
        }
        None => Ok(()),
    }
}

/// Puts the rows of a satellite at the stations.
fn print_pairs<K: Sink>(plan: &Plan, sat: u32, number: u32, out: &mut K) -> Result<(), Failed>
    requires { sat < length plan.now.satellites }
    ensures { IsPrinted K.Sink result out.old out.new (pairs_text plan.now number (slice_get plan.now.satellites sat)) }
{
    for station in 0..plan.stations() {
        if let Some(answer) = plan.pair_row(sat, station) {
            print_pair(plan, number, station + 1, answer, out)?;
        }
    }
    Ok(())
}
