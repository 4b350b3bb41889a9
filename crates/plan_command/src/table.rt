//! The printing of timetables. Each line is one put.
ghost use Rattle.std.specs.Prelude.{All};
ghost use Rattle.plan_command.specs.Parts.{tables_text};
ghost use Rattle.plan_command.specs.Tables.{AreTables, IsContactWithin};
ghost use Rattle.plan_core.specs.State.{plan_record};
ghost use Rattle.plan_text.specs.TableLines.{pass_lines, table_block};
ghost use Rattle.run_ends.specs.Printed.{IsPrinted};

use elements::Window;
use outside_io::{Failed, Sink};
use plan_core::{Plan, Table};
use plan_text::{pass_line, table_line};
use run_ends::put_line;

/// Puts the timetable of each station.
pub(crate) fn print_tables<K: Sink>(
    plan: &Plan,
    tables: &[Table],
    out: &mut K,
) -> Result<(), Failed>
    requires { AreTables (plan_record plan.now) tables.now }
    ensures { IsPrinted K.Sink result out.old out.new (tables_text plan.now) }
{
    let window = plan.window();
    for k in 0..plan.stations() {
        print_table(window, k + 1, &tables[k as usize], out)?;
    }
    Ok(())
}

/// Puts the timetable of the station with an index, counted from 1.
fn print_table<K: Sink>(
    window: Window,
    index: u32,
    table: &Table,
    out: &mut K,
) -> Result<(), Failed>
    requires { All (IsContactWithin window.ticks) table.now }
    ensures { IsPrinted K.Sink result out.old out.new (table_block window.start index table.now) }
{
    put_line(table_line(index, table.len()).bytes(), out)?;
    print_passes(window, table, out)
}

/// Puts a line for each contact.
fn print_passes<K: Sink>(window: Window, table: &Table, out: &mut K) -> Result<(), Failed>
    requires { All (IsContactWithin window.ticks) table.now }
    ensures { IsPrinted K.Sink result out.old out.new (pass_lines window.start table.now) }
{
    for k in 0..table.len() {
        put_line(pass_line(window, table.contact(k)).bytes(), out)?;
    }
    Ok(())
}
