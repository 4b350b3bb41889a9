//! Runs of the command.
ghost use Rattle.std.specs.Prelude.{◌≤◌};

use crate::fit::are_fit;
use crate::given::an_hour;
use book_command::{BookPlan, Booked, StationBooking, run_book};
use contact_alloc::check;
use outside_io::{MemoryShelf, MemorySink};
use run_ends::{Ending, Refusal};
use std::alloc::{AllocError, Global};
use std::process::Abort;

/// The exit status that an ending stands for.
fn status(ending: &Ending<BookPlan>) -> u8 {
    match ending {
        Ending::Done { product } => { if product.whole() { 0 } else { 1 } }
        Ending::WriteFault { .. } => 8,
        Ending::Refused(Refusal::BadCatalogue(_)) => 4,
        Ending::Refused(Refusal::BadStations(_)) => 5,
        Ending::Refused(Refusal::Unread) => 6,
        Ending::Refused(Refusal::TooLong) => 7,
        Ending::Refused(Refusal::OutOfMemory) => 9,
    }
}

/// What the command writes of a catalogue and stations over an hour, with so many antennas, and how it ends. The load of a
/// number and the put of a number fail; both are counted from 1, and none of number 0 comes.
pub fn run_over(
    alloc: Global,
    catalogue: &[u8],
    stations: &[u8],
    antennas: u32,
    load: u64,
    put: u64,
) -> Result<(MemorySink, Ending<BookPlan>), AllocError>
    requires least { 1 ≤ antennas }
    requires most { antennas ≤ 64 }
{
    let mut shelf = MemoryShelf::make(alloc)?;
    shelf.add(b"c", catalogue)?;
    shelf.add(b"s", stations)?;
    shelf.fail_at(load)?;
    let mut out = MemorySink::make(alloc, 100_000)?;
    out.fail_at(put)?;
    let ending = run_book(alloc, b"c", b"s", an_hour(), antennas, &mut shelf, &mut out);
    Ok((out, ending))
}

/// Whether the checker accepts the booking of contacts with so many antennas.
fn is_certified(alloc: Global, booked: &Booked, antennas: u32) -> Result<bool, AllocError>
    requires least { 1 ≤ antennas }
    requires most { antennas ≤ 64 }
{
    let bids = booked.bids();
    let booking = booked.booking();
    if !are_fit(bids) {
        return Ok(false);
    }
    check(alloc, bids, antennas, booking.used(), booking.prices())
}

/// Whether there is a plan with so many stations, and the checker accepts the booking of each.
pub fn are_certified(
    alloc: Global,
    ending: &Ending<BookPlan>,
    antennas: u32,
    stations: usize,
) -> Result<bool, AllocError>
    requires least { 1 ≤ antennas }
    requires most { antennas ≤ 64 }
{
    let Ending::Done { product } = ending else {
        return Ok(false);
    };
    for booking in product.bookings() {
        match booking {
            StationBooking::TooMany { .. } => return Ok(false),
            StationBooking::Booked(booked) => {
                if !is_certified(alloc, booked, antennas)? {
                    return Ok(false);
                }
            }
        }
    }
    Ok(product.bookings().len() == stations)
}

/// The command writes this of a catalogue and stations with one antenna, where a load or a put fails, with this status.
pub fn writes(
    catalogue: &[u8],
    stations: &[u8],
    load: u64,
    put: u64,
    wanted: &[u8],
    wanted_status: u8,
    rt: &(impl Abort + AllocGlobal),
) -> Result<(), AllocError> {
    let (out, ending) = run_over(rt.alloc(), catalogue, stations, 1, load, put)?;
    assert_eq!(rt; out.written(), wanted, "load {load}, put {put}");
    assert_eq!(rt; status(&ending), wanted_status, "load {load}, put {put}");
    Ok(())
}
