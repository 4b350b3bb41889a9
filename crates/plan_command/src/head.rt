//! The head of what is printed of a plan: its window, its offset, its stations, its satellites. Each line is one put.
ghost use Rattle.pass_text.specs.DayLayout.{window_line};
ghost use Rattle.plan_command.specs.Head.{head_lines};
ghost use Rattle.plan_core.specs.State.{plan_record};
ghost use Rattle.plan_text.specs.HeadLines.{offset_lines, station_lines};
ghost use Rattle.plan_text.specs.SatLine.{sat_lines};
ghost use Rattle.run_ends.specs.Printed.{IsPrinted};

use outside_io::{Failed, Sink};
use pass_text::window_line;
use plan_core::Plan;
use plan_text::{offset_line, sat_line, station_line};
use run_ends::put_line;

/// Puts the lines of a plan's window, of its offset where that is not 0, of its stations, and of its satellites.
pub fn print_head<K: Sink>(plan: &Plan, out: &mut K) -> Result<(), Failed>
    ensures { IsPrinted K.Sink result out.old out.new (head_lines (plan_record plan.now)) }
{
    put_line(window_line(plan.window()).bytes(), out)?;
    print_offset(plan.dut1_ms(), out)?;
    print_stations(plan, out)?;
    print_satellites(plan, out)
}

/// Puts the line of an offset in milliseconds, where it is not 0.
fn print_offset<K: Sink>(ms: i32, out: &mut K) -> Result<(), Failed>
    ensures { IsPrinted K.Sink result out.old out.new (offset_lines ms) }
{
    if ms == 0 {
        Ok(())
    } else {
        put_line(offset_line(ms).bytes(), out)
    }
}

/// Puts a line for each station.
fn print_stations<K: Sink>(plan: &Plan, out: &mut K) -> Result<(), Failed>
    ensures { IsPrinted K.Sink result out.old out.new (station_lines 1 (plan_record plan.now).stations) }
{
    for k in 0..plan.stations() {
        let name = plan.station_name(k);
        put_line(station_line(k + 1, name.bytes()).bytes(), out)?;
    }
    Ok(())
}

/// Puts a line for each satellite.
fn print_satellites<K: Sink>(plan: &Plan, out: &mut K) -> Result<(), Failed>
    ensures { IsPrinted K.Sink result out.old out.new (sat_lines (plan_record plan.now).satellites) }
{
    for k in 0..plan.sats() {
        let row = plan.sat(k);
        put_line(
            sat_line(row.number, row.fate, row.name.bytes()).bytes(),
            out,
        )?;
    }
    Ok(())
}
