//! The planner.
ghost use Rattle.std.specs.Prelude.{◌≡◌, ◌<◌, ◌≤◌, ℕ, [], length, map, slice_get, All, IfOk, None, Some};
ghost use Rattle.catalogue.specs.declared.entry.Entry.{Entry};
ghost use Rattle.span_bisect.specs.Answer.{IsPoolAfter, answer_spans};
ghost use Rattle.span_pool.specs.Pool.{Holds, IsReleased, KeepsOthers, list_at, list_of, slots_used};
ghost use Rattle.plan_core.specs.Answered.{IsLightAnswer, IsSightAnswer};
ghost use Rattle.plan_core.specs.Certificate.{IsPlanOf};
ghost use Rattle.plan_core.specs.Fates.{IsExactFate, IsFate};
ghost use Rattle.plan_core.specs.Kept.{IsKept};
ghost use Rattle.plan_core.specs.LostAt.{LosesNoneAt};
ghost use Rattle.plan_core.specs.Readers.{IsReady};
ghost use Rattle.plan_core.specs.State.{IsPlanBy, entry_of, plan_record};

use crate::fill::fill_all;
use crate::plan::Plan;
use crate::satellite::Satellite;
use crate::setting::Setting;
use crate::tracks::{track_light, track_pair};
use catalogue::Catalogue;
use elements::{OutOfMemory, Window};
use sgp4_shape::SatFault;
use span_bisect::{Span, SpanPool, Track, TrackAnswer};
use station_file::Stations;
use std::alloc::Global;
use std::marker::Model;

/// The satellites of a catalogue, stations and a window, with all the memory that a plan of them needs.
#[derive(Drop)]
pub struct Planner {
    setting: Setting,
    satellites: Vec<Satellite>,
    pool: SpanPool,
    cells: u64,
}

impl Model for Planner {
    ghost use Rattle.std.specs.Prelude.{map};
    ghost use Rattle.plan_core.specs.State.{PlannerState};

    ghost Value = { PlannerState };

    ghost use Rattle.plan_core.specs.Filled.{ArePlanned};
    ghost use Rattle.plan_core.specs.State.{SatState, entry_of};

    ghost view = { λ p. record { entries = map entry_of p.satellites.items; fates = map (λ (s : SatState). s.fate) p.satellites.items; setting = p.setting; pool = p.pool } };

    ghost invariant = { λ p. ArePlanned p.setting p.satellites.items p.pool };
}

impl Planner {
    /// A planner of a catalogue, stations and a window, with so many slots for spans. All memory of its plan is taken here.
    pub fn make(
        alloc: Global,
        catalogue: Catalogue,
        stations: Stations,
        window: Window,
        slots: u32,
    ) -> Result<Planner, OutOfMemory>
        requires { (1 ≤ slots) × (slots ≤ 1048576) }
        ensures entries { IfOk result (λ planner. planner.entries ≡ catalogue) }
        ensures stations { IfOk result (λ planner. planner.setting.stations ≡ stations) }
        ensures window { IfOk result (λ planner. planner.setting.window ≡ window) }
        ensures slots { IfOk result (λ planner. planner.pool.slots ≡ slots) }
        ensures empty { IfOk result (λ planner. (head : ℕ) → list_at planner.pool head ≡ []) }
        ensures used { IfOk result (λ planner. slots_used planner.pool ≡ 0) }
    {
        let pool = SpanPool::with_slots(alloc, slots)?;
        let setting = Setting::make(alloc, stations, window)?;
        let satellites = satellites_of(alloc, &catalogue, &setting)?;
        Ok(Planner {
            setting,
            satellites,
            pool,
            cells: 0,
        })
    }

    /// Why a satellite is refused, if it is. That an end of the window is far from the epoch of its set comes last.
    pub fn fate(&self, sat: u32) -> Option<SatFault>
        requires { sat < length self.now.entries }
        ensures value { Some result ≡ slice_get self.now.fates sat }
        ensures fate { (entry : Entry) → slice_get self.now.entries sat ≡ Some entry → IsFate self.now.setting.window entry.elements result }
        ensures exact { (entry : Entry) → slice_get self.now.entries sat ≡ Some entry → IsExactFate self.now.setting.window entry.elements result }
    {
        self.satellites[sat as usize].row().fate
    }

    /// The spans of a satellite at a station, in slots of the pool. The satellite is accepted. Where the answer is spans, no
    /// contact that is longer than the resolution is lost.
    pub fn track(&mut self, sat: u32, station: u32) -> TrackAnswer
        requires accepted { slice_get self.old.fates sat ≡ Some None }
        requires station { station < length self.old.setting.stations.rows }
        ensures certified { IsSightAnswer self.old sat station self.new.pool result }
        ensures none_lost { LosesNoneAt self.old sat station result (answer_spans self.new.pool result) }
        ensures pool { IsPoolAfter self.old.pool self.new.pool result }
        ensures kept { IsKept self.old.pool self.new.pool }
        ensures same { self.new ≡ record self.old { pool = self.new.pool } }
    {
        let satellite = &self.satellites[sat as usize];
        let cover = track_pair(satellite, &self.setting, station, &mut self.pool);
        self.cells = self.cells.saturating_add(cover.cells);
        cover.answer
    }

    /// The spans of a satellite's light, in slots of the pool. The satellite is accepted.
    pub fn lit(&mut self, sat: u32) -> TrackAnswer
        requires { slice_get self.old.fates sat ≡ Some None }
        ensures certified { IsLightAnswer self.old sat self.new.pool result }
        ensures pool { IsPoolAfter self.old.pool self.new.pool result }
        ensures kept { IsKept self.old.pool self.new.pool }
        ensures same { self.new ≡ record self.old { pool = self.new.pool } }
    {
        let satellite = &self.satellites[sat as usize];
        let cover = track_light(satellite, &self.setting, &mut self.pool);
        self.cells = self.cells.saturating_add(cover.cells);
        cover.answer
    }

    /// Gives the slots of a track back.
    pub fn give_back(&mut self, track: Track)
        requires { Holds self.old.pool track }
        ensures released { IsReleased self.old.pool self.new.pool track }
        ensures others { KeepsOthers self.old.pool self.new.pool track.head }
        ensures same { self.new ≡ record self.old { pool = self.new.pool } }
    {
        self.pool.release(track);
    }

    /// How many slots are in use.
    pub fn used(&self) -> u32
        ensures used { result ≡ slots_used self.now.pool }
        ensures limit { result ≤ self.now.pool.slots }
    {
        self.pool.used()
    }

    /// The span at place `k` of a track, counted from 0. There is none where `k` is not below the count.
    pub fn span(&self, track: &Track, k: u32) -> Option<Span>
        requires { Holds self.now.pool track.now }
        ensures { result ≡ slice_get (list_of self.now.pool track.now) k }
    {
        self.pool.get(track, k)
    }

    /// The plan: each satellite in order, and for each that is accepted the row of its light and those of the stations, in
    /// order. No slot is in use before.
    pub fn plan(self) -> Plan
        requires { slots_used self.pool ≡ 0 }
        ensures certified { IsPlanOf self.pool.slots self.entries self.setting (plan_record result) }
        ensures same { IsPlanBy self result }
    {
        let Planner {
            setting,
            mut satellites,
            mut pool,
            mut cells,
        } = self;
        fill_all(&mut satellites, &setting, &mut pool, &mut cells);
        Plan::of(setting, satellites, pool, cells)
    }
}

/// The satellites of a catalogue, each with a place for the answer of each station where it is accepted.
fn satellites_of(
    alloc: Global,
    catalogue: &Catalogue,
    setting: &Setting,
) -> Result<Vec<Satellite>, OutOfMemory>
    ensures entries { IfOk result (λ satellites. map entry_of satellites.items ≡ catalogue.now) }
    ensures ready { IfOk result (λ satellites. All (IsReady setting.now) satellites.items) }
    ensures few { IfOk result (λ satellites. length satellites.items ≤ 16384) }
{
    let window = setting.window();
    let stations = setting.stations();
    let count = catalogue.len();
    let mut satellites = Vec::with_capacity(alloc, count as usize)?;
    for k in 0..count {
        satellites.push(Satellite::make(alloc, catalogue.entry(k), window, stations)?)?;
    }
    Ok(satellites)
}
