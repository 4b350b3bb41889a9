//! The printing of a plan, a line at a time. Each line is one put.
ghost use Rattle.plan_command.specs.Parts.{plan_text};
ghost use Rattle.plan_command.specs.Tables.{AreTables};
ghost use Rattle.plan_core.specs.State.{plan_record};
ghost use Rattle.run_ends.specs.Printed.{IsPrinted};

use crate::head::print_head;
use crate::row::print_rows;
use crate::table::print_tables;
use outside_io::{Failed, Sink};
use pass_text::END;
use plan_core::{Plan, Table};
use plan_text::PASSPLAN;
use run_ends::put_line;

/// Puts the whole layout.
pub(crate) fn print_plan<K: Sink>(plan: &Plan, tables: &[Table], out: &mut K) -> Result<(), Failed>
    requires { AreTables (plan_record plan.now) tables.now }
    ensures { IsPrinted K.Sink result out.old out.new (plan_text plan.now) }
{
    put_line(PASSPLAN, out)?;
    print_head(plan, out)?;
    print_rows(plan, out)?;
    print_tables(plan, tables, out)?;
    put_line(END, out)
}
