//! A run of the command.
ghost use Rattle.show_command.specs.Shown.{show};
ghost use Rattle.run_ends.specs.Runs.{IsRunOf};

use crate::print::print_show;
use catalogue::Catalogue;
use elements::Instant;
use outside_io::{Shelf, Sink};
use run_ends::{Ending, ended, load_catalogue, refuse};
use std::alloc::Global;

/// Reads the satellites of the file of this name, each by its element set that is nearest to an instant, and writes them.
pub fn run_show<S: Shelf, K: Sink>(
    alloc: Global,
    name: &[u8],
    start: Instant,
    shelf: &mut S,
    out: &mut K,
) -> Ending<Catalogue>
    requires { S.allows shelf.old name.now }
    ensures { IsRunOf S.Shelf K.Sink (show name.now start) result shelf.old shelf.new out.old out.new }
{
    match load_catalogue(alloc, name, start, shelf) {
        Ok(catalogue) => {
            let printed = print_show(&catalogue, out);
            ended(catalogue, printed)
        }
        Err(refusal) => refuse(refusal, out),
    }
}
