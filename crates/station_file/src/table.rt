//! What a TOML table of a station file holds.
ghost use Rattle.std.specs.Prelude.{◌≡◌, option_map, string_bytes};
ghost use Rattle.std.specs.List.{list_all};
ghost use Rattle.std.specs.BTreeMap.{keys};
ghost use Rattle.toml.specs.Data.{get_member};
ghost use Rattle.toml.specs.View.{array_view, table_view, view};
ghost use Rattle.station_file.specs.Tables.{array_at, has_key, has_keys_of, has_only, has_station_keys, integer_at, is_first_key, is_second_key, is_station_key, string_at, value_at, version_at, version_of};

use crate::fault::StKey;
use crate::version::Version;
use toml::{Table, Value};

/// The value at a name.
fn value_of<'a>(table: &'a Table, name: &str) -> Option<&'a Value>
    ensures { option_map (λ v. view v.now) result ≡ get_member name.now (table_view table.now) }
{
    table.get(name)
}

/// The value at a key.
pub(crate) fn value_at<'a>(table: &'a Table, key: StKey) -> Option<&'a Value>
    ensures { option_map (λ v. view v.now) result ≡ value_at key (table_view table.now) }
{
    value_of(table, key.name())
}

/// The string at a key.
pub(crate) fn string_at<'a>(table: &'a Table, key: StKey) -> Option<&'a str>
    ensures { option_map (λ s. s.now) result ≡ string_at key (table_view table.now) }
{
    match value_at(table, key) {
        Some(value) => value.as_str(),
        None => None,
    }
}

/// The array at a key.
pub(crate) fn array_at<'a>(table: &'a Table, key: StKey) -> Option<&'a Vec<Value>>
    ensures { option_map (λ v. array_view v.now) result ≡ array_at key (table_view table.now) }
{
    match value_at(table, key) {
        Some(value) => value.as_array(),
        None => None,
    }
}

/// Whether there is a value at a key.
fn has_key(table: &Table, key: StKey) -> bool
    ensures { result ≡ has_key key (table_view table.now) }
{
    value_at(table, key).is_some()
}

/// The integer at a key.
pub(crate) fn integer_at(table: &Table, key: StKey) -> Option<i64>
    ensures { result ≡ integer_at key (table_view table.now) }
{
    match value_at(table, key) {
        Some(value) => value.as_integer(),
        None => None,
    }
}

/// Whether the name is one of the keys of the top table in version 1.
fn is_first_key(name: &str) -> bool
    ensures { result ≡ is_first_key name.now }
{
    name == "version" || name == "station"
}

/// Whether the name is one of the keys of the top table in version 2.
fn is_second_key(name: &str) -> bool
    ensures { result ≡ is_second_key name.now }
{
    is_first_key(name) || name == "dut1_ms"
}

/// Whether the name is one of the keys of a station.
fn is_station_key(name: &str) -> bool
    ensures { result ≡ is_station_key name.now }
{
    name == "name"
        || name == "lat"
        || name == "lon"
        || name == "height"
        || name == "mask"
        || name == "borders"
        || name == "masks"
}

/// Whether each name of the map is a key of the top table in version 1.
fn are_first_keys(table: &Table) -> bool
    ensures { result ≡ list_all (λ k. is_first_key (string_bytes k)) (keys table.now) }
{
    table.keys().all(|name| is_first_key(name.as_str()))
}

/// Whether each name of the map is a key of the top table in version 2.
fn are_second_keys(table: &Table) -> bool
    ensures { result ≡ list_all (λ k. is_second_key (string_bytes k)) (keys table.now) }
{
    table.keys().all(|name| is_second_key(name.as_str()))
}

/// Whether each name of the map is a key of a station.
fn are_station_keys(table: &Table) -> bool
    ensures { result ≡ list_all (λ k. is_station_key (string_bytes k)) (keys table.now) }
{
    table.keys().all(|name| is_station_key(name.as_str()))
}

/// Whether the top table has no other keys than those of version 1.
fn has_first_keys(table: &Table) -> bool
    ensures { result ≡ has_only is_first_key (table_view table.now) }
{
    are_first_keys(table)
}

/// Whether the top table has no other keys than those of version 2.
fn has_second_keys(table: &Table) -> bool
    ensures { result ≡ has_only is_second_key (table_view table.now) }
{
    are_second_keys(table)
}

/// Whether the top table has no other keys than those of the version.
pub(crate) fn has_keys_of(version: Version, table: &Table) -> bool
    ensures { result ≡ has_keys_of version (table_view table.now) }
{
    match version {
        Version::First => has_first_keys(table),
        Version::Second => has_second_keys(table),
    }
}

/// Whether a station has no other keys than its own.
fn has_known_keys(table: &Table) -> bool
    ensures { result ≡ has_only is_station_key (table_view table.now) }
{
    are_station_keys(table)
}

/// Whether a station has no other keys than its own, and not `mask` together with `borders` or `masks`.
pub(crate) fn has_station_keys(table: &Table) -> bool
    ensures { result ≡ has_station_keys (table_view table.now) }
{
    has_known_keys(table)
        && !(has_key(table, StKey::Mask)
            && (has_key(table, StKey::Borders) || has_key(table, StKey::Masks)))
}

/// The version of this number: 1 or 2.
fn version_of(number: i64) -> Option<Version>
    ensures { result ≡ version_of number }
{
    if number == 1 {
        Some(Version::First)
    } else if number == 2 {
        Some(Version::Second)
    } else {
        None
    }
}

/// The version that the top table names, if it is one of the two.
pub(crate) fn version_at(table: &Table) -> Option<Version>
    ensures { result ≡ version_at (table_view table.now) }
{
    match integer_at(table, StKey::Version) {
        Some(number) => version_of(number),
        None => None,
    }
}
