//! A run of the command.
ghost use Rattle.locate_command.specs.Located.{locate, locate_text};
ghost use Rattle.run_ends.specs.Endings.{IsForMemory, WithProduct};
ghost use Rattle.run_ends.specs.Printed.{IsWritten};
ghost use Rattle.run_ends.specs.Runs.{IsRunOf};
ghost use Rattle.sat_locate.specs.Found.{IsAnswerFor, locate_record};

use crate::print::print_located;
use catalogue::Catalogue;
use elements::{Instant, OutOfMemory};
use outside_io::{Shelf, Sink};
use run_ends::{Ending, Refusal, ended, load_catalogue, refuse};
use sat_locate::{LocAnswer, locate};
use std::alloc::Global;

/// Finds where the satellite with a catalogue number of the file of this name is at an instant, and writes it.
pub fn run_locate<S: Shelf, K: Sink>(
    alloc: Global,
    name: &[u8],
    number: u32,
    at: Instant,
    shelf: &mut S,
    out: &mut K,
) -> Ending<LocAnswer>
    requires { S.allows shelf.old name.now }
    ensures { IsRunOf S.Shelf K.Sink (locate name.now number at) result shelf.old shelf.new out.old out.new }
{
    match load_catalogue(alloc, name, at, shelf) {
        Ok(satellites) => write_located(alloc, &satellites, number, at, out),
        Err(refusal) => refuse(refusal, out),
    }
}

/// Finds where the satellite with a catalogue number is at an instant, and writes it.
fn write_located<K: Sink>(
    alloc: Global,
    satellites: &Catalogue,
    number: u32,
    at: Instant,
    out: &mut K,
) -> Ending<LocAnswer>
    ensures product { WithProduct (λ answer. IsAnswerFor satellites.now number at (locate_record answer)) result }
    ensures written { IsWritten K.Sink locate_text result out.old out.new }
    ensures cause { IsForMemory result }
{
    match locate(alloc, satellites, number, at) {
        Ok(answer) => {
            let printed = print_located(&answer, out);
            ended(answer, printed)
        }
        Err(OutOfMemory) => refuse(Refusal::OutOfMemory, out),
    }
}
