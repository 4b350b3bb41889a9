//! A satellite that is planned, or refused.
ghost use Rattle.std.specs.Prelude.{◌≡◌, ◌<◌, ◌≤◌, ◌↔◌, length, slice_set, option_copied, IfOk, IsTrue, None};
ghost use Rattle.std.specs.List.{list_all};
ghost use Rattle.span_bisect.specs.Answer.{answer_record};
ghost use Rattle.span_bisect.specs.declared.answer.TrackAnswer.{TrackAnswer};
ghost use Rattle.plan_core.specs.Whole.{is_spans};

use crate::fate::accept;
use crate::sat_row::SatRow;
use catalogue::Entry;
use elements::{Elements, OutOfMemory, Text, Window};
use orbit_sight::Craft;
use span_bisect::TrackAnswer;
use std::alloc::Global;
use std::marker::Model;

/// A satellite: its set, how it is listed, its craft where it is accepted, and the answers of its rows. Until a row is made
/// its answer is `Full` at 0.
#[derive(Drop)]
pub(crate) struct Satellite {
    set: Elements,
    row: SatRow,
    craft: Option<Craft>,
    lit: TrackAnswer,
    pairs: Vec<TrackAnswer>,
}

impl Model for Satellite {
    ghost use Rattle.std.specs.Prelude.{◌≡◌};
    ghost use Rattle.plan_core.specs.State.{SatState};

    ghost Value = { SatState };

    ghost use Rattle.plan_core.specs.Readers.{where_accepted};

    ghost view = { λ s. record { set = s.set; name = s.row.name; fate = s.row.fate; lit = s.lit; pairs = s.pairs.items } };

    ghost invariant = { λ s. (s.row.number ≡ s.set.number) × (s.craft ≡ where_accepted s.row.fate s.set) };
}

impl Satellite {
    ghost use Rattle.catalogue.specs.Entries.{IsName};
    ghost use Rattle.plan_core.specs.Certificate.{SettingRecord};
    ghost use Rattle.plan_core.specs.Readers.{IsReady, listed, pair_by, where_accepted};
    ghost use Rattle.plan_core.specs.State.{entry_of};
    ghost use Rattle.plan_core.specs.Whole.{has_spans_alone};

    /// The satellite of an entry, with a place for the answer of each of so many stations. All its memory is taken here.
    pub(crate) fn make(
        alloc: Global,
        entry: &Entry,
        window: Window,
        stations: u32,
    ) -> Result<Satellite, OutOfMemory>
        requires { IsName entry.now.name }
        ensures entry { IfOk result (λ satellite. entry_of satellite ≡ entry.now) }
        ensures ready { IfOk result (λ satellite. (setting : SettingRecord) → setting.window ≡ window → length setting.stations.rows ≡ stations → IsReady setting satellite) }
    {
        let set = entry.elements;
        let name = Text::copy(alloc, entry.name.bytes())?;
        let (fate, craft, places) = match accept(&set, &window) {
            Ok(craft) => (None, Some(craft), stations),
            Err(fault) => (Some(fault), None, 0),
        };
        let pairs = no_answers(alloc, places)?;
        Ok(Satellite {
            set,
            row: SatRow {
                number: set.number(),
                name,
                fate,
            },
            craft,
            lit: TrackAnswer::Full { at: 0 },
            pairs,
        })
    }

    /// How it is listed.
    pub(crate) fn row(&self) -> &SatRow
        ensures { result.now ≡ listed self.now }
    {
        &self.row
    }

    /// Its craft.
    pub(crate) fn craft(&self) -> Option<&Craft>
        ensures { option_copied result ≡ where_accepted self.now.fate self.now.set }
    {
        self.craft.as_ref()
    }

    /// Whether it is accepted.
    pub(crate) fn is_accepted(&self) -> bool
        ensures { IsTrue result ↔ (self.now.fate ≡ None) }
    {
        self.row.fate.is_none()
    }

    /// The answer for its light.
    pub(crate) fn lit(&self) -> Option<&TrackAnswer>
        ensures { option_copied result ≡ where_accepted self.now.fate self.now.lit }
    {
        match self.row.fate {
            None => Some(&self.lit),
            Some(_) => None,
        }
    }

    /// The answer at a station.
    pub(crate) fn pair(&self, station: u32) -> Option<&TrackAnswer>
        ensures { option_copied result ≡ pair_by self.now.fate self.now.pairs station }
    {
        match self.row.fate {
            None => self.pairs.get(station as usize),
            Some(_) => None,
        }
    }

    /// Whether it is accepted and each row is spans.
    pub(crate) fn is_resolved(&self) -> bool
        ensures { result ≡ has_spans_alone self.now }
    {
        match self.row.fate {
            None => is_spans(&self.lit) && are_spans(&self.pairs),
            Some(_) => false,
        }
    }

    /// Puts the answer for its light.
    pub(crate) fn set_lit(&mut self, answer: TrackAnswer)
        ensures { self.new ≡ record self.old { lit = answer } }
    {
        self.lit = answer;
    }

    /// Puts the answer at a station.
    pub(crate) fn set_pair(&mut self, station: u32, answer: TrackAnswer)
        requires { station < length self.old.pairs }
        ensures { self.new ≡ record self.old { pairs = slice_set self.old.pairs station answer } }
    {
        self.pairs[station as usize] = answer;
    }
}

/// A place for each of so many answers.
fn no_answers(alloc: Global, count: u32) -> Result<Vec<TrackAnswer>, OutOfMemory>
    ensures { IfOk result (λ answers. length answers.items ≡ count) }
{
    let mut answers = Vec::with_capacity(alloc, count as usize)?;
    for _k in 0..count {
        answers.push(TrackAnswer::Full { at: 0 })?;
    }
    Ok(answers)
}

/// Whether an answer is spans.
fn is_spans(answer: &TrackAnswer) -> bool
    ensures { result ≡ is_spans (answer_record answer.now) }
{
    matches!(answer, TrackAnswer::Spans(_))
}

/// Whether each answer is spans.
fn are_spans(answers: &[TrackAnswer]) -> bool
    ensures { result ≡ list_all (λ (answer : TrackAnswer). is_spans (answer_record answer)) answers.now }
{
    answers.iter().all(|answer| is_spans(answer))
}
