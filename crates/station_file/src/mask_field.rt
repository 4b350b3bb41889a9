//! The elevation mask of a station, as its table gives it.
ghost use Rattle.std.specs.Prelude.{◌≡◌, [], IfOk, IfErr, Ok, Err, length, true};
ghost use Rattle.std.specs.List.{list_all};
ghost use Rattle.toml.specs.View.{items_view, table_view};
ghost use Rattle.station_file.specs.MaskFields.{decimals_after, decimals_at, flat_at, is_floor, mask_at, sectors_at, sectors_of, sectors_value};
ghost use Rattle.station_file.specs.Masks.{IsMask};
ghost use Rattle.station_file.specs.MaskTests.{are_borders};
ghost use Rattle.station_file.specs.Steps.{IsFaultOf};

use crate::border::are_borders;
use crate::fault::{StFault, StKey};
use crate::field::{decimal_of, is_from_to, number_at};
use crate::mask::MaskRow;
use crate::sector::Sector;
use crate::table::{array_at, value_at};
use elements::Decimal;
use std::alloc::Global;
use toml::{Table, Value};

/// The decimals of strings, or the fault where one of them is no such string.
fn decimals_of(alloc: Global, fault: StFault, values: &[Value]) -> Result<Vec<Decimal>, StFault>
    ensures ok { IfOk result (λ numbers. decimals_after fault [] (items_view values.now) ≡ Ok numbers.items) }
    ensures err { IfErr result (IsFaultOf (decimals_after fault [] (items_view values.now))) }
{
    let mut numbers = Vec::new(alloc);
    for value in values {
        match decimal_of(value) {
            Some(number) => {
                if numbers.push(number).is_err() {
                    return Err(StFault::OutOfMemory);
                }
            }
            None => return Err(fault),
        }
    }
    Ok(numbers)
}

/// The decimals of the array at a key of a station, or a fault.
fn decimals_at(
    alloc: Global,
    index: u32,
    key: StKey,
    table: &Table,
) -> Result<Vec<Decimal>, StFault>
    ensures ok { IfOk result (λ numbers. decimals_at index key (table_view table.now) ≡ Ok numbers.items) }
    ensures err { IfErr result (IsFaultOf (decimals_at index key (table_view table.now))) }
{
    match array_at(table, key) {
        Some(values) => decimals_of(alloc, StFault::Shape { index, key }, values),
        None => Err(StFault::Shape { index, key }),
    }
}

/// Whether an elevation is from -90 to 90 degrees.
fn is_floor(floor: Decimal) -> bool
    ensures { result ≡ is_floor floor }
{
    is_from_to(floor, -90, 90)
}

/// Whether each elevation is.
fn are_floors(floors: &[Decimal]) -> bool
    ensures { result ≡ list_all is_floor floors.now }
{
    floors.iter().all(|floor| is_floor(*floor))
}

/// The sectors of borders and of as many elevations.
fn sectors_of(
    alloc: Global,
    borders: &[Decimal],
    floors: &[Decimal],
) -> Result<Vec<Sector>, StFault>
    requires { length floors.now ≡ length borders.now }
    ensures ok { IfOk result (λ sectors. sectors.items ≡ sectors_of borders.now floors.now) }
    ensures err { IfErr result (λ e. e ≡ StFault.OutOfMemory) }
{
    let mut sectors = Vec::new(alloc);
    for (k, border) in borders.iter().enumerate() {
        let sector = Sector {
            border: *border,
            floor: floors[k],
        };
        if sectors.push(sector).is_err() {
            return Err(StFault::OutOfMemory);
        }
    }
    Ok(sectors)
}

/// The mask of borders and of elevations in range, or a fault.
#[tactic(auto, using(crate::proofs::MaskLemmas::tested_is_mask))]
fn mask_of(
    alloc: Global,
    index: u32,
    borders: &[Decimal],
    floors: &[Decimal],
) -> Result<MaskRow, StFault>
    ensures ok { IfOk result (λ mask. sectors_value index borders.now floors.now ≡ Ok mask) }
    ensures err { IfErr result (IsFaultOf (sectors_value index borders.now floors.now)) }
    ensures mask { IfOk result IsMask }
{
    if !are_floors(floors) {
        return Err(StFault::Range {
            index,
            key: StKey::Masks,
        });
    }
    if !(are_borders(borders) && floors.len() == borders.len()) {
        return Err(StFault::Mask { index });
    }
    match sectors_of(alloc, borders, floors) {
        Ok(sectors) => Ok(MaskRow::of(sectors)),
        Err(fault) => Err(fault),
    }
}

/// The mask of the keys `borders` and `masks`, or the first fault.
fn sectors_at(alloc: Global, index: u32, table: &Table) -> Result<MaskRow, StFault>
    ensures ok { IfOk result (λ mask. sectors_at index (table_view table.now) ≡ Ok mask) }
    ensures err { IfErr result (IsFaultOf (sectors_at index (table_view table.now))) }
    ensures mask { IfOk result IsMask }
{
    match decimals_at(alloc, index, StKey::Borders, table) {
        Ok(borders) => match decimals_at(alloc, index, StKey::Masks, table) {
            Ok(floors) => mask_of(alloc, index, &borders, &floors),
            Err(fault) => Err(fault),
        },
        Err(fault) => Err(fault),
    }
}

/// The mask of the key `mask`, or the first fault.
#[tactic(auto, using(crate::proofs::FlatLemmas::flat_is_mask))]
fn flat_at(alloc: Global, index: u32, table: &Table) -> Result<MaskRow, StFault>
    ensures ok { IfOk result (λ mask. flat_at index (table_view table.now) ≡ Ok mask) }
    ensures err { IfErr result (IsFaultOf (flat_at index (table_view table.now))) }
    ensures mask { IfOk result IsMask }
{
    match number_at(index, StKey::Mask, -90, 90, table) {
        Ok(floor) => match MaskRow::flat(alloc, floor) {
            Ok(mask) => Ok(mask),
            Err(_) => Err(StFault::OutOfMemory),
        },
        Err(fault) => Err(fault),
    }
}

/// The mask of a station, or the first fault.
pub(crate) fn mask_at(alloc: Global, index: u32, table: &Table) -> Result<MaskRow, StFault>
    ensures ok { IfOk result (λ mask. mask_at index (table_view table.now) ≡ Ok mask) }
    ensures err { IfErr result (IsFaultOf (mask_at index (table_view table.now))) }
    ensures mask { IfOk result IsMask }
{
    match value_at(table, StKey::Mask) {
        Some(_) => flat_at(alloc, index, table),
        None => sectors_at(alloc, index, table),
    }
}
