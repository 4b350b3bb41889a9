//! A run of the command.
ghost use Rattle.std.specs.Prelude.{◌≤◌};
ghost use Rattle.book_command.specs.BookLayout.{book_text};
ghost use Rattle.book_command.specs.BookedAt.{book_of};
ghost use Rattle.book_command.specs.Bookings.{AreForward};
ghost use Rattle.book_command.specs.Made.{IsBookFor, IsBookOf};
ghost use Rattle.plan_core.specs.State.{plan_record};
ghost use Rattle.run_ends.specs.Endings.{IsForMemory, WithProduct};
ghost use Rattle.run_ends.specs.Printed.{IsWritten};
ghost use Rattle.run_ends.specs.Runs.{IsRunOf};

use crate::book::bookings_of;
use crate::plan::BookPlan;
use crate::print::print_book;
use catalogue::Catalogue;
use elements::{OutOfMemory, Window};
use outside_io::{Shelf, Sink};
use plan_command::{Plan, planned};
use run_ends::{Ending, Refusal, ended, load_catalogue, load_stations, refuse};
use station_file::Stations;
use std::alloc::Global;

/// Plans the satellites of a file, by their sets that are nearest to the window's start, over the stations of a file, allots
/// the contacts of each station to so many antennas, and writes the bookings. All memory is taken before the first line is put.
pub fn run_book<S: Shelf, K: Sink>(
    alloc: Global,
    catalogue: &[u8],
    stations: &[u8],
    window: Window,
    antennas: u32,
    shelf: &mut S,
    out: &mut K,
) -> Ending<BookPlan>
    requires antennas { (1 ≤ antennas) × (antennas ≤ 64) }
    requires catalogue { S.allows shelf.old catalogue.now }
    requires stations { S.allows shelf.old stations.now }
    ensures { IsRunOf S.Shelf K.Sink (book_of catalogue.now stations.now window antennas) result shelf.old shelf.new out.old out.new }
{
    match load_catalogue(alloc, catalogue, window.start(), shelf) {
        Ok(satellites) => match load_stations(alloc, stations, shelf) {
            Ok(places) => write_book(alloc, satellites, places, window, antennas, out),
            Err(refusal) => refuse(refusal, out),
        },
        Err(refusal) => refuse(refusal, out),
    }
}

/// Plans satellites over stations, books the contacts, and writes the bookings.
fn write_book<K: Sink>(
    alloc: Global,
    satellites: Catalogue,
    places: Stations,
    window: Window,
    antennas: u32,
    out: &mut K,
) -> Ending<BookPlan>
    requires antennas { (1 ≤ antennas) × (antennas ≤ 64) }
    ensures product { WithProduct (IsBookFor satellites places window antennas) result }
    ensures written { IsWritten K.Sink book_text result out.old out.new }
    ensures cause { IsForMemory result }
{
    match planned(alloc, satellites, places, window) {
        Ok(plan) => write_planned(alloc, plan, antennas, out),
        Err(OutOfMemory) => refuse(Refusal::OutOfMemory, out),
    }
}

/// Books the contacts of a plan, and writes the bookings.
fn write_planned<K: Sink>(alloc: Global, plan: Plan, antennas: u32, out: &mut K) -> Ending<BookPlan>
    requires forward { AreForward (plan_record plan) }
    requires antennas { (1 ≤ antennas) × (antennas ≤ 64) }
    ensures product { WithProduct (IsBookOf plan antennas) result }
    ensures written { IsWritten K.Sink book_text result out.old out.new }
    ensures cause { IsForMemory result }
{
    match bookings_of(alloc, &plan, antennas) {
        Ok(bookings) => {
            let _window = plan.window();
            let book = BookPlan::of(plan, bookings);
            let printed = print_book(&book, out);
            ended(book, printed)
        }
        Err(OutOfMemory) => refuse(Refusal::OutOfMemory, out),
    }
}
