//! Reads a catalogue.
ghost use Rattle.std.specs.Prelude.{◌≡◌, ◌≤◌, length, Err};
ghost use Rattle.catalogue.specs.Choice.{chosen};
ghost use Rattle.catalogue.specs.Lines.{written_lines};
ghost use Rattle.catalogue.specs.MessageFile.{is_of_messages};
ghost use Rattle.catalogue.specs.Place.{most_bytes};
ghost use Rattle.catalogue.specs.Sets.{sets_in};
ghost use Rattle.catalogue.specs.Source.{sets_left};

use crate::catalogue::{Catalogue, MOST_ENTRIES};
use crate::fault::CatFault;
use crate::lines::Lines;
use crate::messages::Messages;
use crate::sets::{Sets, next_set};
use elements::Instant;
use std::alloc::Global;

/// Whether a file is of messages.
fn is_of_messages(bytes: &[u8]) -> bool
    requires { length bytes.now ≤ most_bytes }
    ensures { result ≡ is_of_messages (written_lines bytes.now) }
{
    match Lines::of(bytes).next() {
        Some(line) => line.text().starts_with(b"CCSDS_OMM_VERS"),
        None => false,
    }
}

/// The place before the first element set of a file.
fn first_set(bytes: &[u8]) -> Sets
    requires { length bytes.now ≤ most_bytes }
    ensures { sets_left result ≡ sets_in bytes.now }
{
    if is_of_messages(bytes) {
        Sets::Messages(Messages::of(bytes))
    } else {
        Sets::Pairs(Lines::of(bytes))
    }
}

/// The satellites of a file, in the order in which their catalogue numbers first stand there, or the first fault in the
/// order of its lines. A satellite that has several element sets is read from the one whose epoch is nearest to the
/// start; of equally near ones from the first.
pub fn read_catalogue(alloc: Global, bytes: &[u8], start: Instant) -> Result<Catalogue, CatFault>
    requires { length bytes.now ≤ most_bytes }
    ensures value { ¬ (result ≡ Err CatFault.OutOfMemory) → result ≡ chosen bytes.now start }
{
    let mut catalogue = Catalogue::empty(alloc);
    let mut sets = first_set(bytes);
    let mut count = 0;
    while let Some(set) = next_set(alloc, &mut sets) {
        if count == MOST_ENTRIES {
            return Err(CatFault::TooMany);
        }
        match set {
            Ok(set) => {
                if catalogue.keep(set, start).is_err() {
                    return Err(CatFault::OutOfMemory);
                }
            }
            Err(fault) => return Err(fault),
        }
        count += 1;
    }
    if count == 0 {
        Err(CatFault::Empty)
    } else {
        Ok(catalogue)
    }
}
