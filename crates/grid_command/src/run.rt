//! A run of the command.
ghost use Rattle.std.specs.Prelude.{◌≤◌, IfOk};
ghost use Rattle.grid_command.specs.Counted.{IsCountedAt, grid_text};
ghost use Rattle.run_ends.specs.Endings.{IsForMemory, WithProduct};
ghost use Rattle.run_ends.specs.Printed.{IsWritten};

use crate::counted::Counted;
use crate::places::{hour, two_stations};
use crate::print::print_grid;
use crate::satellites::generated;
use elements::OutOfMemory;
use outside_io::Sink;
use plan_command::planned;
use run_ends::{Ending, Refusal, ended, refuse};
use std::alloc::Global;

/// Plans the first `count` generated satellites, 1 to 1,000, over the two stations in the hour, and writes the counts of the
/// plan. All memory is taken before the first line is put.
pub fn run_grid<K: Sink>(alloc: Global, count: u32, out: &mut K) -> Ending<Counted>
    requires { (1 ≤ count) × (count ≤ 1000) }
    ensures product { WithProduct (IsCountedAt count) result }
    ensures written { IsWritten K.Sink grid_text result out.old out.new }
    ensures cause { IsForMemory result }
{
    match counted(alloc, count) {
        Ok(counted) => {
            let printed = print_grid(counted.summary(), out);
            ended(counted, printed)
        }
        Err(OutOfMemory) => refuse(Refusal::OutOfMemory, out),
    }
}

/// The plan, counted.
#[tactic(auto, using(crate::proofs::CountedLemmas::is_counted))]
fn counted(alloc: Global, count: u32) -> Result<Counted, OutOfMemory>
    requires { (1 ≤ count) × (count ≤ 1000) }
    ensures { IfOk result (IsCountedAt count) }
{
    let satellites = generated(alloc, count)?;
    let places = two_stations(alloc)?;
    Ok(Counted::of(planned(alloc, satellites, places, hour())?))
}
