//! Runs of the command.
ghost use Rattle.std.specs.Prelude.{◌≤◌};

use grid_command::{Counted, run_grid};
use outside_io::MemorySink;
use run_ends::{Ending, Refusal};
use std::alloc::{AllocError, Global};

/// The exit status that an ending stands for.
fn status(ending: &Ending<Counted>) -> u8 {
    match ending {
        Ending::Done { product } => { if product.is_whole() { 0 } else { 1 } }
        Ending::WriteFault { .. } => 8,
        Ending::Refused(Refusal::BadCatalogue(_)) => 4,
        Ending::Refused(Refusal::BadStations(_)) => 5,
        Ending::Refused(Refusal::Unread) => 6,
        Ending::Refused(Refusal::TooLong) => 7,
        Ending::Refused(Refusal::OutOfMemory) => 9,
    }
}

/// What the command writes of so many satellites into an output whose put of a number, counted from 1, fails, and the status;
/// none of number 0 comes.
pub fn run_of(alloc: Global, count: u32, put: u64) -> Result<(MemorySink, u8), AllocError>
    requires { (1 ≤ count) × (count ≤ 1000) }
{
    let mut out = MemorySink::make(alloc, 1000)?;
    out.fail_at(put)?;
    let ending = run_grid(alloc, count, &mut out);
    let found = status(&ending);
    Ok((out, found))
}
