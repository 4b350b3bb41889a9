//! The timetable of a station.
ghost use Rattle.std.specs.Prelude.{◌≡◌, ◌<◌, ◌++◌, length, slice_get, IfOk, OnOk, Some};
ghost use Rattle.plan_text.specs.Timetable.{is_visible, timetable};
ghost use Rattle.span_bisect.specs.Answer.{IsHeld, answer_spans};
ghost use Rattle.span_pool.specs.Pool.{Holds, list_of};
ghost use Rattle.plan_core.specs.Contacts.{contacts_of, visible_in};
ghost use Rattle.plan_core.specs.State.{plan_record};

use crate::plan::Plan;
use elements::OutOfMemory;
use plan_text::{Contact, put_in_order};
use span_bisect::{Mark, Track, TrackAnswer};
use std::alloc::Global;
use std::marker::Model;

/// The contacts of a station, by where they begin, where they end, and the satellites' numbers.
#[derive(Drop)]
pub struct Table {
    contacts: Vec<Contact>,
}

impl Model for Table {
    ghost use Rattle.std.specs.Prelude.{List};
    ghost use Rattle.contact_alloc.specs.declared.bid.Contact.{Contact};
    ghost use Rattle.plan_core.specs.Contacts.{IsTable};

    ghost Value = { List Contact };

    ghost view = { λ table. table.contacts.items };

    ghost invariant = { λ table. IsTable table.contacts.items };
}

impl Table {
    /// How many contacts there are.
    pub fn len(&self) -> u32
        ensures { result ≡ length self.now }
    {
        self.contacts.len() as u32
    }

    /// A contact, counted from 0.
    pub fn contact(&self, k: u32) -> Contact
        requires { k < length self.now }
        ensures { Some result ≡ slice_get self.now k }
    {
        self.contacts[k as usize]
    }
}

/// The timetable of a station of a plan, counted from 0: the visible spans of its rows, in order.
pub fn timetable(alloc: Global, plan: &Plan, station: u32) -> Result<Table, OutOfMemory>
    requires { station < length plan.now.setting.stations.rows }
    ensures { IfOk result (λ table. table ≡ timetable (plan_record plan.now) station) }
{
    let mut contacts = Vec::new(alloc);
    let sats = plan.sats();
    for sat in 0..sats {
        add_contacts(&mut contacts, plan, sat, station)?;
    }
    put_in_order(&mut contacts);
    Ok(Table { contacts })
}

/// Adds the visible spans of a satellite at a station.
fn add_contacts(
    contacts: &mut Vec<Contact>,
    plan: &Plan,
    sat: u32,
    station: u32,
) -> Result<(), OutOfMemory>
    requires sat { sat < length plan.now.satellites }
    requires station { station < length plan.now.setting.stations.rows }
    ensures { OnOk result (contacts.new.items ≡ contacts.old.items ++ contacts_of station (slice_get (plan_record plan.now).satellites sat)) }
{
    let number = plan.sat(sat).number;
    match plan.pair_row(sat, station) {
        Some(answer) => add_answer(contacts, plan, answer, number),
        None => Ok(()),
    }
}

/// Adds the visible spans of an answer.
fn add_answer(
    contacts: &mut Vec<Contact>,
    plan: &Plan,
    answer: &TrackAnswer,
    number: u32,
) -> Result<(), OutOfMemory>
    requires { IsHeld plan.now.pool answer.now }
    ensures { OnOk result (contacts.new.items ≡ contacts.old.items ++ visible_in number (answer_spans plan.now.pool answer.now)) }
{
    match answer {
        TrackAnswer::Spans(track) => add_visible(contacts, plan, track, number),
        TrackAnswer::Unresolved { .. } => Ok(()),
        TrackAnswer::Full { .. } => Ok(()),
        TrackAnswer::Decays { .. } => Ok(()),
    }
}

/// Adds the visible spans of a track.
fn add_visible(
    contacts: &mut Vec<Contact>,
    plan: &Plan,
    track: &Track,
    number: u32,
) -> Result<(), OutOfMemory>
    requires { Holds plan.now.pool track.now }
    ensures { OnOk result (contacts.new.items ≡ contacts.old.items ++ visible_in number (list_of plan.now.pool track.now)) }
{
    for k in 0..track.count() {
        let Some(span) = plan.span(track, k) else {
            return Ok(());
        };
        if is_visible(span.mark) {
            contacts.push(Contact {
                from: span.from,
                to: span.to,
                number,
            })?;
        }
    }
    Ok(())
}

/// Whether the mark says that the satellite is visible.
fn is_visible(mark: Mark) -> bool
    ensures { result ≡ is_visible mark }
{
    match mark {
        Mark::Yes => true,
        Mark::No | Mark::Undecided => false,
    }
}
