//! The stations and the window of the generated plan.
ghost use Rattle.std.specs.Prelude.{◌≡◌, IfOk};
ghost use Rattle.grid_command.specs.Generated.{equator, hour, north, stations};

use crate::set::midnight;
use elements::{Decimal, OutOfMemory, Text, Window};
use station_file::{MaskRow, StationRow, Stations};
use std::alloc::Global;

/// The hour from 2000-06-28T00:00:00Z, in ticks of 100 microseconds, with a resolution of 10 seconds.
pub fn hour() -> Window
    ensures { result ≡ hour }
{
    Window::make(midnight(), 36_000_000, 100_000)
}

/// The stations `Equator`, at latitude and longitude 0 with a mask of 10 degrees, and `North`, at latitude 67.9 and longitude
/// 21 degrees with a mask of 5 degrees; both at the height 0, and UT1 is UTC.
pub fn two_stations(alloc: Global) -> Result<Stations, OutOfMemory>
    ensures { IfOk result (λ list. list ≡ stations) }
{
    let mut rows = Vec::with_capacity(alloc, 2)?;
    rows.push(equator(alloc)?)?;
    rows.push(north(alloc)?)?;
    Ok(Stations::of(rows))
}

/// The station on the equator.
fn equator(alloc: Global) -> Result<StationRow, OutOfMemory>
    ensures { IfOk result (λ row. row ≡ equator) }
{
    Ok(StationRow {
        name: Text::copy(alloc, b"Equator")?,
        lat: Decimal::whole(0),
        lon: Decimal::whole(0),
        height: Decimal::whole(0),
        mask: MaskRow::flat(alloc, Decimal::whole(10))?,
    })
}

/// The station in the north.
fn north(alloc: Global) -> Result<StationRow, OutOfMemory>
    ensures { IfOk result (λ row. row ≡ north) }
{
    Ok(StationRow {
        name: Text::copy(alloc, b"North")?,
        lat: Decimal::of_scaled(679, 1),
        lon: Decimal::whole(21),
        height: Decimal::whole(0),
        mask: MaskRow::flat(alloc, Decimal::whole(5))?,
    })
}
