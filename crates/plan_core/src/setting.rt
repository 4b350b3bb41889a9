//! The stations and the window of a plan.
ghost use Rattle.std.specs.Prelude.{◌≡◌, ◌<◌, ◌≤◌, length, map, slice_get, IfOk, Some};
ghost use Rattle.elements.specs.Window.{IsWindow};
ghost use Rattle.station_file.specs.Rows.{AreStations, IsStationRow, record_of_station};
ghost use Rattle.orbit_sight.specs.Scene.{record_of_station as place_record};

use elements::{OutOfMemory, Text, Window};
use station_file::{StationRow, Stations};
use station_view::Station;
use std::alloc::Global;
use std::marker::Model;

/// Stations, as they were read and as they are judged with, and a window.
#[derive(Drop)]
pub(crate) struct Setting {
    stations: Stations,
    places: Vec<Station>,
    window: Window,
}

impl Model for Setting {
    ghost use Rattle.std.specs.Prelude.{◌≡◌, map};
    ghost use Rattle.plan_core.specs.Certificate.{SettingRecord};
    ghost use Rattle.station_file.specs.Rows.{record_of_station};

    ghost Value = { SettingRecord };

    ghost use Rattle.orbit_sight.specs.Scene.{record_of_station as place_record};

    ghost view = { λ g. record { stations = g.stations; window = g.window } };

    ghost invariant = { λ g. map place_record g.places.items ≡ map record_of_station g.stations.rows };
}

impl Setting {
    /// The setting of these stations and this window. All its memory is taken here.
    pub(crate) fn make(
        alloc: Global,
        stations: Stations,
        window: Window,
    ) -> Result<Setting, OutOfMemory>
        ensures stations { IfOk result (λ setting. setting.stations ≡ stations) }
        ensures window { IfOk result (λ setting. setting.window ≡ window) }
    {
        let places = places_of(alloc, &stations)?;
        Ok(Setting {
            stations,
            places,
            window,
        })
    }

    /// The window.
    pub(crate) fn window(&self) -> Window
        ensures value { result ≡ self.now.window }
        ensures window { IsWindow self.now.window }
    {
        let _ticks = self.window.ticks();
        self.window
    }

    /// How many stations there are.
    pub(crate) fn stations(&self) -> u32
        ensures value { result ≡ length self.now.stations.rows }
        ensures stations { AreStations self.now.stations }
    {
        self.stations.len()
    }

    /// By how many milliseconds UT1 is ahead of UTC.
    pub(crate) fn dut1_ms(&self) -> i32
        ensures value { result ≡ self.now.stations.dut1 }
        ensures stations { AreStations self.now.stations }
    {
        self.stations.dut1_ms()
    }

    /// The name of a station.
    pub(crate) fn name(&self, k: u32) -> &Text
        requires { k < length self.now.stations.rows }
        ensures { Some result.now ≡ slice_get (map (λ (row : StationRow). row.name) self.now.stations.rows) k }
    {
        &self.stations.row(k).name
    }

    /// A station, as it is judged with.
    pub(crate) fn station(&self, k: u32) -> &Station
        requires { k < length self.now.stations.rows }
        ensures { Some (place_record result.now) ≡ slice_get (map record_of_station self.now.stations.rows) k }
    {
        &self.places[k as usize]
    }
}

/// The stations, as they are judged with.
fn places_of(alloc: Global, stations: &Stations) -> Result<Vec<Station>, OutOfMemory>
    ensures { IfOk result (λ places. map place_record places.items ≡ map record_of_station stations.now.rows) }
{
    let count = stations.len();
    let mut places = Vec::with_capacity(alloc, count as usize)?;
    for k in 0..count {
        places.push(fixed(alloc, stations.row(k))?)?;
    }
    Ok(places)
}

/// A station, as it is judged with.
fn fixed(alloc: Global, row: &StationRow) -> Result<Station, OutOfMemory>
    requires { IsStationRow row.now }
    ensures { IfOk result (λ station. place_record station ≡ record_of_station row.now) }
{
    Station::fix(alloc, row)
}
