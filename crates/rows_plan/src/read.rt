//! What is read of a plan. These functions promise nothing, so that a test that calls them knows nothing of the plan; and a
//! test asks no `?` once it has a plan, since each one lets the plan go in a place of its own.
use elements::OutOfMemory;
use plan_core::{Plan, Span, Table, TrackAnswer, timetable};
use sgp4_shape::SatFault;
use span_bisect::Mark;
use std::alloc::Global;

/// How many satellites there are.
pub fn sats_of(plan: &Plan) -> u32 {
    plan.sats()
}

/// How many stations there are.
pub fn stations_of(plan: &Plan) -> u32 {
    plan.stations()
}

/// Whether a satellite is listed with this number and this name.
pub fn is_listed(plan: &Plan, sat: u32, number: u32, name: &[u8]) -> bool {
    if sat >= plan.sats() {
        return false;
    }
    let row = plan.sat(sat);
    row.number == number && row.name.bytes() == name
}

/// Why a satellite is refused, if it is.
pub fn fate_of(plan: &Plan, sat: u32) -> Option<SatFault> {
    if sat >= plan.sats() {
        return None;
    }
    plan.sat(sat).fate
}

/// Whether a satellite is accepted, and has a craft.
pub fn is_accepted(plan: &Plan, sat: u32) -> bool {
    sat < plan.sats() && plan.sat(sat).fate.is_none() && plan.craft(sat).is_some()
}

/// Whether a satellite has no craft, no row of its light and none at a station.
pub fn has_no_rows(plan: &Plan, sat: u32, station: u32) -> bool {
    sat < plan.sats()
        && station < plan.stations()
        && plan.craft(sat).is_none()
        && plan.lit_row(sat).is_none()
        && plan.pair_row(sat, station).is_none()
}

/// Whether a station has this name.
pub fn is_station(plan: &Plan, station: u32, name: &[u8]) -> bool {
    station < plan.stations() && plan.station_name(station).bytes() == name
}

/// The row of a satellite's light.
pub fn light_of(plan: &Plan, sat: u32) -> Option<&TrackAnswer> {
    if sat >= plan.sats() {
        return None;
    }
    plan.lit_row(sat)
}

/// The row of a satellite at a station.
pub fn pair_of(plan: &Plan, sat: u32, station: u32) -> Option<&TrackAnswer> {
    if sat >= plan.sats() || station >= plan.stations() {
        return None;
    }
    plan.pair_row(sat, station)
}

/// How many ticks the stretch is long in which the row of a satellite at a station is unresolved.
pub fn unresolved_for(plan: &Plan, sat: u32, station: u32) -> Option<u64> {
    match pair_of(plan, sat, station) {
        Some(TrackAnswer::Unresolved { from, to }) => Some(to.saturating_sub(*from)),
        _ => None,
    }
}

/// Whether the row of a satellite at a station is one span with this mark, of so many ticks from 0.
pub fn is_one_span(plan: &Plan, sat: u32, station: u32, mark: Mark, ticks: u64) -> bool {
    if sat >= plan.sats() || station >= plan.stations() {
        return false;
    }
    match plan.pair_row(sat, station) {
        Some(TrackAnswer::Spans(track)) => {
            track.count() == 1 && is_span(plan.span(track, 0), mark, 0, ticks)
        }
        _ => false,
    }
}

/// Whether the span is there, and this one.
pub fn is_span(span: Option<Span>, mark: Mark, from: u64, to: u64) -> bool {
    match span {
        Some(span) => span.mark == mark && span.from == from && span.to == to,
        None => false,
    }
}

/// Whether the answer is one span, unresolved or full.
pub fn is_small(answer: &TrackAnswer) -> bool {
    match answer {
        TrackAnswer::Spans(track) => track.count() == 1,
        TrackAnswer::Unresolved { .. } => true,
        TrackAnswer::Full { .. } => true,
        TrackAnswer::Decays { .. } => false,
    }
}

/// How many contacts the timetable of a station has, if there is this station and memory.
pub fn contacts_of(alloc: Global, plan: &Plan, station: u32) -> Option<u32> {
    if station >= plan.stations() {
        return None;
    }
    match timetable(alloc, plan, station) {
        Ok(table) => Some(table.len()),
        Err(OutOfMemory) => None,
    }
}

/// Whether the timetable of a station is one contact, which begins, ends and is of this number.
pub fn is_one_contact(
    alloc: Global,
    plan: &Plan,
    station: u32,
    from: u64,
    to: u64,
    number: u32,
) -> bool {
    if station >= plan.stations() {
        return false;
    }
    match timetable(alloc, plan, station) {
        Ok(table) => table.len() == 1 && is_contact(&table, from, to, number),
        Err(OutOfMemory) => false,
    }
}

/// Whether the first contact of a table begins, ends and is of this number.
fn is_contact(table: &Table, from: u64, to: u64, number: u32) -> bool {
    if table.len() == 0 {
        return false;
    }
    let contact = table.contact(0);
    contact.from == from && contact.to == to && contact.number == number
}
