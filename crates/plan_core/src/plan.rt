//! A plan.
ghost use Rattle.std.specs.Prelude.{◌≡◌, ◌<◌, ◌≤◌, length, map, slice_get, option_copied, option_map, All, IfSome, None, Some};
ghost use Rattle.std.specs.List.{list_all};
ghost use Rattle.catalogue.specs.Entries.{most_entries};
ghost use Rattle.plan_text.specs.Plan.{IsPlan, IsRow};
ghost use Rattle.span_bisect.specs.Answer.{IsHeld};
ghost use Rattle.span_pool.specs.Pool.{Holds, list_of};
ghost use Rattle.station_file.specs.Rows.{record_of_station};
ghost use Rattle.orbit_sight.specs.Scene.{record_of_station as place_record};
ghost use Rattle.plan_core.specs.Filled.{IsMadeFromNone, spans_in_all};
ghost use Rattle.plan_core.specs.Readers.{IsReady, craft_of, listed, lit_of, pair_of};
ghost use Rattle.plan_core.specs.State.{plan_record, row_of};
ghost use Rattle.plan_core.specs.Whole.{has_spans_alone, is_whole};

use crate::sat_row::SatRow;
use crate::satellite::Satellite;
use crate::setting::Setting;
use elements::{Text, Window};
use orbit_sight::Craft;
use span_bisect::{Span, SpanPool, Track, TrackAnswer};
use station_view::Station;
use std::marker::Model;

/// A plan: stations and a window; satellites in order, each refused or with its rows; and the spans of the rows.
#[derive(Drop)]
pub struct Plan {
    setting: Setting,
    satellites: Vec<Satellite>,
    pool: SpanPool,
    cells: u64,
}

impl Model for Plan {
    ghost use Rattle.plan_core.specs.State.{PlanState};

    ghost Value = { PlanState };

    ghost use Rattle.plan_core.specs.Filled.{IsPlanState};

    ghost view = { λ p. record { setting = p.setting; satellites = p.satellites.items; pool = p.pool; cells = p.cells } };

    ghost invariant = { λ p. IsPlanState (record { setting = p.setting; satellites = p.satellites.items; pool = p.pool; cells = p.cells }) };
}

impl Plan {
    /// The plan of satellites whose rows were made in a pool that was empty.
    pub(crate) fn of(
        setting: Setting,
        satellites: Vec<Satellite>,
        pool: SpanPool,
        cells: u64,
    ) -> Plan
        requires made { IsMadeFromNone setting pool satellites.items }
        requires ready { All (IsReady setting) satellites.items }
        requires few { length satellites.items ≤ most_entries }
        requires slots { pool.slots ≤ 1048576 }
        ensures { result ≡ record { setting = setting; satellites = satellites.items; pool = pool; cells = cells } }
    {
        let _used = pool.used();
        let _window = setting.window();
        let _stations = setting.stations();
        Plan {
            setting,
            satellites,
            pool,
            cells,
        }
    }

    /// The window.
    pub fn window(&self) -> Window
        ensures value { result ≡ self.now.setting.window }
        ensures plan { IsPlan (plan_record self.now) }
    {
        self.setting.window()
    }

    /// By how many milliseconds UT1 is ahead of UTC.
    pub fn dut1_ms(&self) -> i32
        ensures value { result ≡ self.now.setting.stations.dut1 }
        ensures plan { IsPlan (plan_record self.now) }
    {
        self.setting.dut1_ms()
    }

    /// How many stations there are.
    pub fn stations(&self) -> u32
        ensures value { result ≡ length self.now.setting.stations.rows }
        ensures plan { IsPlan (plan_record self.now) }
    {
        self.setting.stations()
    }

    /// The name of a station, counted from 0.
    pub fn station_name(&self, k: u32) -> &Text
        requires { k < length self.now.setting.stations.rows }
        ensures value { Some result.now ≡ slice_get (plan_record self.now).stations k }
        ensures plan { IsPlan (plan_record self.now) }
    {
        self.setting.name(k)
    }

    /// A station, counted from 0, as its rows were judged with it.
    pub fn station(&self, k: u32) -> &Station
        requires { k < length self.now.setting.stations.rows }
        ensures { Some (place_record result.now) ≡ slice_get (map record_of_station self.now.setting.stations.rows) k }
    {
        self.setting.station(k)
    }

    /// How many satellites there are.
    pub fn sats(&self) -> u32
        ensures value { result ≡ length self.now.satellites }
        ensures plan { IsPlan (plan_record self.now) }
        ensures few { spans_in_all (plan_record self.now).satellites ≤ 1048576 }
    {
        self.satellites.len() as u32
    }

    /// A satellite, counted from 0.
    pub fn sat(&self, k: u32) -> &SatRow
        requires { k < length self.now.satellites }
        ensures value { Some result.now ≡ option_map listed (slice_get self.now.satellites k) }
        ensures plan { IsPlan (plan_record self.now) }
    {
        self.satellites[k as usize].row()
    }

    /// The answer for a satellite's light, where it is accepted.
    pub fn lit_row(&self, sat: u32) -> Option<&TrackAnswer>
        requires { sat < length self.now.satellites }
        ensures value { option_copied result ≡ lit_of (slice_get self.now.satellites sat) }
        ensures held { IfSome result (λ answer. IsHeld self.now.pool answer.now) }
        ensures row { IfSome result (λ answer. IsRow self.now.setting.window.ticks (row_of self.now.pool answer.now)) }
    {
        self.satellites[sat as usize].lit()
    }

    /// The answer for a satellite at a station, where it is accepted.
    pub fn pair_row(&self, sat: u32, station: u32) -> Option<&TrackAnswer>
        requires sat { sat < length self.now.satellites }
        requires station { station < length self.now.setting.stations.rows }
        ensures value { option_copied result ≡ pair_of (slice_get self.now.satellites sat) station }
        ensures held { IfSome result (λ answer. IsHeld self.now.pool answer.now) }
        ensures row { IfSome result (λ answer. IsRow self.now.setting.window.ticks (row_of self.now.pool answer.now)) }
    {
        self.satellites[sat as usize].pair(station)
    }

    /// The craft of a satellite, where it is accepted.
    pub fn craft(&self, sat: u32) -> Option<&Craft>
        requires { sat < length self.now.satellites }
        ensures { option_copied result ≡ craft_of (slice_get self.now.satellites sat) }
    {
        self.satellites[sat as usize].craft()
    }

    /// The span at place `k` of a track, counted from 0. There is none where `k` is not below the count.
    pub fn span(&self, track: &Track, k: u32) -> Option<Span>
        requires { Holds self.now.pool track.now }
        ensures { result ≡ slice_get (list_of self.now.pool track.now) k }
    {
        self.pool.get(track, k)
    }

    /// How many verdicts were asked for. It stays at `u64::MAX`.
    pub fn cells(&self) -> u64
        ensures { result ≡ self.now.cells }
    {
        self.cells
    }

    /// Whether no satellite is refused and every row is spans.
    pub fn whole(&self) -> bool
        ensures { result ≡ is_whole (plan_record self.now) }
    {
        are_resolved(&self.satellites)
    }
}

/// Whether each satellite is accepted and each of its rows is spans.
fn are_resolved(satellites: &[Satellite]) -> bool
    ensures { result ≡ list_all has_spans_alone satellites.now }
{
    satellites.iter().all(|satellite| satellite.is_resolved())
}
