//! Reading a station file.
ghost use Rattle.std.specs.Prelude.{◌≡◌, ◌+◌, ◌<◌, ◌≤◌, ◌^◌, [], IfOk, IfErr, Ok, Err, false, length, neg_ℤ, pos};
ghost use Rattle.decimals.specs.Decimal.{value};
ghost use Rattle.elements.specs.Elements.{IsFromTo};
ghost use Rattle.toml.specs.View.{items_view, table_view, view};
ghost use Rattle.elements.specs.Offset.{IsOffset};
ghost use Rattle.station_file.specs.Rows.{AreRows, IsName, IsStationRow, IsStations};
ghost use Rattle.station_file.specs.Tables.{value_at};
ghost use Rattle.station_file.specs.StationFile.{is_taken, offset_at, offset_of, row_of, row_of_fields, row_of_parts, rows_after, rows_at, rows_of, station_value, stations_in, stations_of, text_value};
ghost use Rattle.station_file.specs.Steps.{IsFaultOf};

use crate::fault::{StFault, StKey};
use crate::field::{Place, name_at, place_at};
use crate::mask_field::mask_at;
use crate::row::StationRow;
use crate::stations::Stations;
use crate::table::{has_keys_of, has_station_keys, integer_at, value_at, version_at};
use crate::version::Version;
use elements::Text;
use std::alloc::Global;
use std::str;
use toml::{Table, Value};

/// Whether one of these stations has the name.
fn is_taken(earlier: &[StationRow], name: &[u8]) -> bool
    ensures { result ≡ is_taken earlier.now name.now }
{
    earlier.iter().any(|row| row.name.bytes() == name)
}

/// The station of a name, a place and the mask of its table, or the first fault.
fn row_of_parts(
    alloc: Global,
    earlier: &[StationRow],
    name: &str,
    place: Place,
    table: &Table,
) -> Result<StationRow, StFault>
    requires index { length earlier.now + 1 < 2 ^ 32 }
    requires name { IsName name.now }
    requires lat { IsFromTo (neg_ℤ (pos 90)) (pos 90) (value place.lat) }
    requires lon { IsFromTo (neg_ℤ (pos 180)) (pos 360) (value place.lon) }
    requires height { IsFromTo (neg_ℤ (pos 500)) (pos 9000) (value place.height) }
    ensures ok { IfOk result (λ row. row_of_parts earlier.now name.now place (table_view table.now) ≡ Ok row) }
    ensures err { IfErr result (IsFaultOf (row_of_parts earlier.now name.now place (table_view table.now))) }
    ensures row { IfOk result IsStationRow }
    ensures untaken { IfOk result (λ row. is_taken earlier.now row.name ≡ false) }
{
    let index = earlier.len() as u32 + 1;
    if is_taken(earlier, name.as_bytes()) {
        return Err(StFault::Twice { index });
    }
    let mask = match mask_at(alloc, index, table) {
        Ok(mask) => mask,
        Err(fault) => return Err(fault),
    };
    match Text::copy(alloc, name.as_bytes()) {
        Ok(name) => Ok(StationRow {
            name,
            lat: place.lat,
            lon: place.lon,
            height: place.height,
            mask,
        }),
        Err(_) => Err(StFault::OutOfMemory),
    }
}

/// The station of a table whose keys are known, or the first fault.
fn row_of_fields(
    alloc: Global,
    earlier: &[StationRow],
    table: &Table,
) -> Result<StationRow, StFault>
    requires { length earlier.now + 1 < 2 ^ 32 }
    ensures ok { IfOk result (λ row. row_of_fields earlier.now (table_view table.now) ≡ Ok row) }
    ensures err { IfErr result (IsFaultOf (row_of_fields earlier.now (table_view table.now))) }
    ensures row { IfOk result IsStationRow }
    ensures untaken { IfOk result (λ row. is_taken earlier.now row.name ≡ false) }
{
    let index = earlier.len() as u32 + 1;
    match name_at(index, table) {
        Ok(name) => match place_at(index, table) {
            Ok(place) => row_of_parts(alloc, earlier, name, place, table),
            Err(fault) => Err(fault),
        },
        Err(fault) => Err(fault),
    }
}

/// The station of a value, or the first fault.
fn row_of(alloc: Global, earlier: &[StationRow], value: &Value) -> Result<StationRow, StFault>
    requires { length earlier.now + 1 < 2 ^ 32 }
    ensures ok { IfOk result (λ row. row_of earlier.now (view value.now) ≡ Ok row) }
    ensures err { IfErr result (IsFaultOf (row_of earlier.now (view value.now))) }
    ensures row { IfOk result IsStationRow }
    ensures untaken { IfOk result (λ row. is_taken earlier.now row.name ≡ false) }
{
    match value.as_table() {
        Some(table) => {
            if has_station_keys(table) {
                row_of_fields(alloc, earlier, table)
            } else {
                Err(StFault::Shape {
                    index: earlier.len() as u32 + 1,
                    key: StKey::Other,
                })
            }
        }
        None => Err(StFault::Shape {
            index: earlier.len() as u32 + 1,
            key: StKey::Station,
        }),
    }
}

/// The stations of values, or the first fault.
#[tactic(auto, using(crate::proofs::RowLemmas::no_rows, crate::proofs::RowLemmas::one_more_row))]
fn rows_of(alloc: Global, values: &[Value]) -> Result<Vec<StationRow>, StFault>
    requires { length values.now ≤ 64 }
    ensures ok { IfOk result (λ rows. rows_after [] (items_view values.now) ≡ Ok rows.items) }
    ensures err { IfErr result (IsFaultOf (rows_after [] (items_view values.now))) }
    ensures len { IfOk result (λ rows. length rows.items ≡ length values.now) }
    ensures rows { IfOk result (λ rows. AreRows rows.items) }
{
    let mut rows = Vec::new(alloc);
    for value in values {
        match row_of(alloc, &rows, value) {
            Ok(row) => {
                if rows.push(row).is_err() {
                    return Err(StFault::OutOfMemory);
                }
            }
            Err(fault) => return Err(fault),
        }
    }
    Ok(rows)
}

/// The stations of an array, of 1 to 64, or the first fault.
#[tactic(auto, using(crate::proofs::RowLemmas::rows_are_stations, crate::proofs::ReadLemmas::no_stations, crate::proofs::ReadLemmas::too_many, crate::proofs::ReadLemmas::few_enough))]
fn rows_in(alloc: Global, values: &[Value]) -> Result<Vec<StationRow>, StFault>
    ensures ok { IfOk result (λ rows. rows_of (items_view values.now) ≡ Ok rows.items) }
    ensures err { IfErr result (IsFaultOf (rows_of (items_view values.now))) }
    ensures stations { IfOk result (λ rows. IsStations rows.items) }
{
    if values.is_empty() {
        return Err(StFault::Empty);
    }
    if values.len() > 64 {
        return Err(StFault::TooMany);
    }
    rows_of(alloc, values)
}

/// The stations of the key `station`, or the first fault.
fn rows_at(alloc: Global, table: &Table) -> Result<Vec<StationRow>, StFault>
    ensures ok { IfOk result (λ rows. rows_at (value_at StKey.Station (table_view table.now)) ≡ Ok rows.items) }
    ensures err { IfErr result (IsFaultOf (rows_at (value_at StKey.Station (table_view table.now)))) }
    ensures stations { IfOk result (λ rows. IsStations rows.items) }
{
    match value_at(table, StKey::Station) {
        Some(value) => match value.as_array() {
            Some(values) => rows_in(alloc, values),
            None => Err(StFault::Shape {
                index: 0,
                key: StKey::Station,
            }),
        },
        None => Err(StFault::Empty),
    }
}

/// The offset of UT1 from UTC that the top table names, in milliseconds, or the first fault.
fn offset_at(table: &Table) -> Result<i32, StFault>
    ensures value { result ≡ offset_at (table_view table.now) }
    ensures range { IfOk result IsOffset }
{
    match integer_at(table, StKey::Dut1) {
        Some(offset) => {
            if offset.unsigned_abs() <= 900 {
                Ok(offset as i32)
            } else {
                Err(StFault::Range {
                    index: 0,
                    key: StKey::Dut1,
                })
            }
        }
        None => Err(StFault::Shape {
            index: 0,
            key: StKey::Dut1,
        }),
    }
}

/// The offset of UT1 from UTC in a version, in milliseconds, or the first fault.
fn offset_of(version: Version, table: &Table) -> Result<i32, StFault>
    ensures value { result ≡ offset_of version (table_view table.now) }
    ensures range { IfOk result IsOffset }
{
    match version {
        Version::First => Ok(0),
        Version::Second => offset_at(table),
    }
}

/// The stations and the offset of the top table in a version, or the first fault.
fn stations_in(alloc: Global, version: Version, table: &Table) -> Result<Stations, StFault>
    ensures ok { IfOk result (λ stations. stations_in version (table_view table.now) ≡ Ok stations) }
    ensures err { IfErr result (IsFaultOf (stations_in version (table_view table.now))) }
{
    if !has_keys_of(version, table) {
        return Err(StFault::Shape {
            index: 0,
            key: StKey::Other,
        });
    }
    match offset_of(version, table) {
        Ok(dut1_ms) => match rows_at(alloc, table) {
            Ok(rows) => Ok(Stations::with_offset(rows, dut1_ms)),
            Err(fault) => Err(fault),
        },
        Err(fault) => Err(fault),
    }
}

/// The stations and the offset of the top table, or the first fault.
fn stations_of(alloc: Global, table: &Table) -> Result<Stations, StFault>
    ensures ok { IfOk result (λ stations. stations_of (table_view table.now) ≡ Ok stations) }
    ensures err { IfErr result (IsFaultOf (stations_of (table_view table.now))) }
{
    match version_at(table) {
        Some(version) => stations_in(alloc, version, table),
        None => Err(StFault::Shape {
            index: 0,
            key: StKey::Version,
        }),
    }
}

/// The stations of a text, or the first fault.
fn stations_of_text(alloc: Global, text: &str) -> Result<Stations, StFault>
    ensures ok { IfOk result (λ stations. text_value text.now ≡ Ok stations) }
    ensures err { IfErr result (IsFaultOf (text_value text.now)) }
{
    match toml::table_from_str(alloc, text) {
        Ok(table) => stations_of(alloc, &table),
        Err(error) => {
            if error.is_memory() {
                Err(StFault::OutOfMemory)
            } else {
                Err(StFault::NotToml)
            }
        }
    }
}

/// Reads a station file: its stations, or its first fault.
pub fn read_stations(alloc: Global, bytes: &[u8]) -> Result<Stations, StFault>
    ensures { ¬ (result ≡ Err StFault.OutOfMemory) → result ≡ station_value bytes.now }
{
    match str::from_utf8(bytes) {
        Ok(text) => match stations_of_text(alloc, text) {
            Ok(stations) => Ok(stations),
            Err(fault) => Err(fault),
        },
        Err(_) => Err(StFault::NotUtf8),
    }
}
