//! The fields of a station: its name and its numbers.
ghost use Rattle.std.specs.Prelude.{◌≡◌, ◌↔◌, IfOk, IfErr, IsTrue, Ok, Err, pos, neg_ℤ};
ghost use Rattle.decimals.specs.Decimal.{value};
ghost use Rattle.elements.specs.Elements.{IsFromTo};
ghost use Rattle.toml.specs.View.{table_view, view};
ghost use Rattle.elements.specs.Ranges.{is_from_to};
ghost use Rattle.station_file.specs.Fields.{decimal_at, decimal_in, decimal_of, is_name, name_at, number_at, place_at, within};
ghost use Rattle.station_file.specs.Rows.{IsName};

use crate::fault::{StFault, StKey};
use crate::table::{string_at, value_at};
use elements::{Decimal, read_decimal};
use toml::{Table, Value};

/// Where a station is: latitude and longitude in degrees, height in metres.
#[derive(Clone, Copy)]
pub(crate) struct Place {
    pub(crate) lat: Decimal,
    pub(crate) lon: Decimal,
    pub(crate) height: Decimal,
}

/// Whether a decimal lies between two whole numbers, both included.
pub(crate) fn is_from_to(number: Decimal, low: i32, high: i32) -> bool
    ensures value { result ≡ is_from_to low high number }
    ensures range { IsTrue result ↔ IsFromTo low high (value number) }
{
    number.is_between(low, high)
}

/// The decimal that a text writes, if it writes one.
fn decimal_in(text: &str) -> Option<Decimal>
    ensures { result ≡ decimal_in text.now }
{
    match read_decimal(text.as_bytes()) {
        Ok(number) => Some(number),
        Err(_) => None,
    }
}

/// The decimal that a string writes, if the value is such a string.
pub(crate) fn decimal_of(value: &Value) -> Option<Decimal>
    ensures { result ≡ decimal_of (view value.now) }
{
    match value.as_str() {
        Some(text) => decimal_in(text),
        None => None,
    }
}

/// A decimal from one whole number to another, or else a fault.
fn within(index: u32, key: StKey, low: i32, high: i32, number: Decimal) -> Result<Decimal, StFault>
    ensures value { result ≡ within index key low high number }
    ensures range { IfOk result (λ number. IsFromTo low high (value number)) }
{
    if is_from_to(number, low, high) {
        Ok(number)
    } else {
        Err(StFault::Range { index, key })
    }
}

/// The decimal at a key.
fn decimal_at(key: StKey, table: &Table) -> Option<Decimal>
    ensures { result ≡ decimal_at key (table_view table.now) }
{
    match value_at(table, key) {
        Some(value) => decimal_of(value),
        None => None,
    }
}

/// The decimal at a key of a station, from one whole number to another; or the first fault.
pub(crate) fn number_at(
    index: u32,
    key: StKey,
    low: i32,
    high: i32,
    table: &Table,
) -> Result<Decimal, StFault>
    ensures value { result ≡ number_at index key low high (table_view table.now) }
    ensures range { IfOk result (λ number. IsFromTo low high (value number)) }
{
    match decimal_at(key, table) {
        Some(number) => within(index, key, low, high, number),
        None => Err(StFault::Shape { index, key }),
    }
}

/// Whether a name has 1 to 64 bytes.
fn is_name(name: &str) -> bool
    ensures value { result ≡ is_name name.now }
    ensures range { IsTrue result ↔ IsName name.now }
{
    1 <= name.len() && name.len() <= 64
}

/// The name of a station, or the first fault.
pub(crate) fn name_at(index: u32, table: &Table) -> Result<&str, StFault>
    ensures ok { IfOk result (λ name. name_at index (table_view table.now) ≡ Ok name.now) }
    ensures err { IfErr result (λ fault. name_at index (table_view table.now) ≡ Err fault) }
    ensures range { IfOk result (λ name. IsName name.now) }
{
    match string_at(table, StKey::Name) {
        Some(name) => {
            if is_name(name) {
                Ok(name)
            } else {
                Err(StFault::Range {
                    index,
                    key: StKey::Name,
                })
            }
        }
        None => Err(StFault::Shape {
            index,
            key: StKey::Name,
        }),
    }
}

/// Where a station is, or the first fault.
pub(crate) fn place_at(index: u32, table: &Table) -> Result<Place, StFault>
    ensures value { result ≡ place_at index (table_view table.now) }
    ensures lat { IfOk result (λ place. IsFromTo (neg_ℤ (pos 90)) (pos 90) (value place.lat)) }
    ensures lon { IfOk result (λ place. IsFromTo (neg_ℤ (pos 180)) (pos 360) (value place.lon)) }
    ensures height { IfOk result (λ place. IsFromTo (neg_ℤ (pos 500)) (pos 9000) (value place.height)) }
{
    let lat = number_at(index, StKey::Lat, -90, 90, table)?;
    let lon = number_at(index, StKey::Lon, -180, 360, table)?;
    let height = number_at(index, StKey::Height, -500, 9000, table)?;
    Ok(Place { lat, lon, height })
}
