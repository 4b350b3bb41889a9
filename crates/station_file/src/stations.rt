//! The stations of a file.
ghost use Rattle.std.specs.Prelude.{◌≡◌, ◌<◌, length, slice_get, Some};

use crate::row::StationRow;
use std::marker::Model;

/// One to 64 stations, each in its ranges, whose names differ; and by how many milliseconds UT1 is ahead of UTC, from -900 to
/// 900. They keep their own memory.
#[derive(Drop)]
pub struct Stations {
    rows: Vec<StationRow>,
    dut1_ms: i32,
}

impl Model for Stations {
    ghost use Rattle.station_file.specs.Rows.{AreStations, StationsRecord};

    ghost Value = { StationsRecord };

    ghost view = { λ stations. record { rows = stations.rows.items; dut1 = stations.dut1_ms } };

    ghost invariant = { λ stations. AreStations (record { rows = stations.rows.items; dut1 = stations.dut1_ms }) };
}

impl Stations {
    ghost use Rattle.std.specs.Prelude.{pos};
    ghost use Rattle.elements.specs.Offset.{IsOffset};
    ghost use Rattle.station_file.specs.Rows.{AreStations, IsStationRow, IsStations};

    /// The stations of these rows: 1 to 64, each in its ranges, whose names differ. UT1 is UTC.
    pub fn of(rows: Vec<StationRow>) -> Stations
        requires { IsStations rows.items }
        ensures { result ≡ record { rows = rows.items; dut1 = pos 0 } }
    {
        Stations { rows, dut1_ms: 0 }
    }

    /// The stations of these rows, where UT1 is so many milliseconds ahead of UTC: from -900 to 900.
    pub(crate) fn with_offset(rows: Vec<StationRow>, dut1_ms: i32) -> Stations
        requires rows { IsStations rows.items }
        requires offset { IsOffset dut1_ms }
        ensures { result ≡ record { rows = rows.items; dut1 = dut1_ms } }
    {
        Stations { rows, dut1_ms }
    }

    /// By how many milliseconds UT1 is ahead of UTC.
    pub fn dut1_ms(&self) -> i32
        ensures value { result ≡ self.now.dut1 }
        ensures stations { AreStations self.now }
    {
        self.dut1_ms
    }

    /// How many stations there are.
    pub fn len(&self) -> u32
        ensures value { result ≡ length self.now.rows }
        ensures stations { AreStations self.now }
    {
        self.rows.len() as u32
    }

    /// A station, counted from 0.
    pub fn row(&self, k: u32) -> &StationRow
        requires { k < length self.now.rows }
        ensures value { Some result.now ≡ slice_get self.now.rows k }
        ensures row { IsStationRow result.now }
        ensures stations { AreStations self.now }
    {
        &self.rows[k as usize]
    }
}
