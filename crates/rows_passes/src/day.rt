//! A day of the ISS over a station, and what is read of its plan.
ghost use Rattle.std.specs.Prelude.{◌≡◌, ◌≤◌, length, pos, IfOk};

use catalogue::read_catalogue;
use elements::{Instant, OutOfMemory, Window};
use plan_core::{Plan, Planner, Table, TrackAnswer, timetable};
use station_file::read_stations;
use std::alloc::Global;
use std::test::Fail;

/// A published set of 2008, day 264.
const ISS: &[u8] =
    b"ISS (ZARYA)\n1 25544U 98067A   08264.51782528 -.00002182  00000-0 -11606-4 0  2927\n2 25544  51.6416 247.4627 0006703 130.5360 325.0288 15.72125391563537\n";

/// A station near Munich.
const MUNICH: &[u8] =
    b"version = 1\n[[station]]\nname = \"Munich\"\nlat = \"48.1\"\nlon = \"11.3\"\nheight = \"600\"\nmask = \"5\"\n";

/// A day from 2008-09-20T12:00:00Z.
pub fn a_day() -> Window
    ensures { result ≡ record { start = pos 275184000000000000; ticks = 864000000; resolution = 10000 } }
{
    Window::make(
        Instant::from_nanos(275_184_000_000_000_000),
        864_000_000,
        10_000,
    )
}

/// The text, if it is small.
fn small(text: &[u8]) -> Result<&[u8], &'static str>
    ensures { IfOk result (λ text. length text.now ≤ 16777216) }
{
    if text.len() > 16_777_216 {
        return Err("a small text");
    }
    Ok(text)
}

/// The plan of the day.
pub fn plan_of_the_day(alloc: Global) -> Result<Plan, Fail> {
    let window = a_day();
    let catalogue = read_catalogue(alloc, small(ISS)?, window.start())?;
    let stations = read_stations(alloc, MUNICH)?;
    Ok(Planner::make(alloc, catalogue, stations, window, 1_048_576)?.plan())
}

/// How many satellites a plan has.
pub fn sats_of(plan: &Plan) -> u32 {
    plan.sats()
}

/// How many stations it has.
pub fn stations_of(plan: &Plan) -> u32 {
    plan.stations()
}

/// Whether the first satellite is accepted.
pub fn is_accepted(plan: &Plan) -> bool {
    plan.sats() > 0 && plan.sat(0).fate.is_none()
}

/// Whether it has this name.
pub fn is_named(plan: &Plan, name: &[u8]) -> bool {
    plan.sats() > 0 && plan.sat(0).name.bytes() == name
}

/// Whether its row at the first station is fewer spans than this.
pub fn has_fewer_spans(plan: &Plan, most: u32) -> bool {
    if plan.sats() == 0 || plan.stations() == 0 {
        return false;
    }
    match plan.pair_row(0, 0) {
        Some(TrackAnswer::Spans(track)) => track.count() < most,
        _ => false,
    }
}

/// How many contacts the timetable of the first station has.
pub fn contacts_of(alloc: Global, plan: &Plan) -> Option<u32> {
    if plan.stations() == 0 {
        return None;
    }
    match timetable(alloc, plan, 0) {
        Ok(table) => Some(table.len()),
        Err(OutOfMemory) => None,
    }
}

/// Whether a contact of it is of this number, and begins and ends within a second of these.
pub fn is_near(alloc: Global, plan: &Plan, k: u32, number: u32, from: u64, to: u64) -> bool {
    if plan.stations() == 0 {
        return false;
    }
    match timetable(alloc, plan, 0) {
        Ok(table) => is_pass(&table, k, number, from, to),
        Err(OutOfMemory) => false,
    }
}

/// Whether a contact of a table is of this number, and begins and ends within a second of these.
fn is_pass(table: &Table, k: u32, number: u32, from: u64, to: u64) -> bool {
    if k >= table.len() {
        return false;
    }
    let contact = table.contact(k);
    contact.number == number
        && contact.from.abs_diff(from) <= 10_000
        && contact.to.abs_diff(to) <= 10_000
}
