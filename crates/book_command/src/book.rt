//! The booking of the stations of a plan.
ghost use Rattle.std.specs.Prelude.{◌≡◌, ◌<◌, ◌≤◌, length, map, All, IfOk};
ghost use Rattle.book_command.specs.Bookings.{AreAllotted, AreBooked, AreForward, IsBooked, IsForward, bid_of, bids_at, most_bids};
ghost use Rattle.elements.specs.Window.{most_ticks};
ghost use Rattle.plan_command.specs.Tables.{IsContactWithin};
ghost use Rattle.plan_core.specs.State.{plan_record};
ghost use Rattle.plan_text.specs.Timetable.{timetable};

use crate::booked::Booked;
use crate::station::StationBooking;
use contact_alloc::{Bid, allocate, ends_in_order};
use elements::OutOfMemory;
use plan_core::{Plan, Table, timetable};
use std::alloc::Global;

/// The most contacts that are booked at a station.
const MOST_BIDS: u32 = 65_536;

/// What is booked at each station of a plan with so many antennas, in order.
pub(crate) fn bookings_of(
    alloc: Global,
    plan: &Plan,
    antennas: u32,
) -> Result<Vec<StationBooking>, OutOfMemory>
    requires forward { AreForward (plan_record plan.now) }
    requires antennas { (1 ≤ antennas) × (antennas ≤ 64) }
    ensures { IfOk result (λ bookings. AreBooked (plan_record plan.now) antennas bookings.items) }
{
    let count = plan.stations();
    let mut bookings = Vec::with_capacity(alloc, count as usize)?;
    for k in 0..count {
        bookings.push(booking_of(alloc, plan, k, antennas)?)?;
    }
    Ok(bookings)
}

/// What is booked at a station, counted from 0.
fn booking_of(
    alloc: Global,
    plan: &Plan,
    station: u32,
    antennas: u32,
) -> Result<StationBooking, OutOfMemory>
    requires station { station < length plan.now.setting.stations.rows }
    requires forward { AreForward (plan_record plan.now) }
    requires antennas { (1 ≤ antennas) × (antennas ≤ 64) }
    ensures { IfOk result (λ booking. IsBooked (bids_at (plan_record plan.now) station) antennas booking) }
{
    let _window = plan.window();
    let table = timetable(alloc, plan, station)?;
    let contacts = table.len();
    if contacts > MOST_BIDS {
        return Ok(StationBooking::TooMany { contacts });
    }
    let booked = booked_of(alloc, &table, antennas)?;
    Ok(StationBooking::Booked(booked))
}

/// The contacts of a timetable, allotted to so many antennas.
fn booked_of(alloc: Global, table: &Table, antennas: u32) -> Result<Booked, OutOfMemory>
    requires forward { All IsForward table.now }
    requires short { All (IsContactWithin most_ticks) table.now }
    requires few { length table.now ≤ most_bids }
    requires antennas { (1 ≤ antennas) × (antennas ≤ 64) }
    ensures { IfOk result (AreAllotted (map bid_of table.now) antennas) }
{
    let bids = bids_of(alloc, table)?;
    let stops = ends_in_order(alloc, &bids)?;
    let booking = allocate(alloc, &bids, antennas)?;
    Ok(Booked::of(bids, stops, booking))
}

/// The contacts of a timetable as bids, each worth its length in ticks.
fn bids_of(alloc: Global, table: &Table) -> Result<Vec<Bid>, OutOfMemory>
    requires { All IsForward table.now }
    ensures { IfOk result (λ bids. bids.items ≡ map bid_of table.now) }
{
    let count = table.len();
    let mut bids = Vec::with_capacity(alloc, count as usize)?;
    for k in 0..count {
        let contact = table.contact(k);
        let value = contact.to - contact.from;
        bids.push(Bid { contact, value })?;
    }
    Ok(bids)
}
