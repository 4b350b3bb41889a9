//! The timetables of a plan.
ghost use Rattle.std.specs.Prelude.{IfOk};
ghost use Rattle.plan_command.specs.Tables.{AreTables};
ghost use Rattle.plan_core.specs.State.{plan_record};

use elements::OutOfMemory;
use plan_core::{Plan, Table, timetable};
use std::alloc::Global;

/// The timetable of each station of a plan, in order.
pub fn tables_of(alloc: Global, plan: &Plan) -> Result<Vec<Table>, OutOfMemory>
    ensures { IfOk result (λ tables. AreTables (plan_record plan.now) tables.items) }
{
    let count = plan.stations();
    let mut tables = Vec::with_capacity(alloc, count as usize)?;
    for k in 0..count {
        tables.push(timetable(alloc, plan, k)?)?;
    }
    Ok(tables)
}
