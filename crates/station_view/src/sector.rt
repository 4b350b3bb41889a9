//! A sector of an elevation mask, with its sines and cosines.
ghost use Rattle.std.specs.Prelude.{◌≡◌, ◌+◌, ◌<◌, ◌≤◌, length, pos, neg_ℤ, slice_get, Some};
ghost use Rattle.decimals.specs.Decimal.{value};
ghost use Rattle.elements.specs.Elements.{IsFromTo};
ghost use Rattle.station_file.specs.Masks.{IsAzimuth};
ghost use Rattle.station_view.specs.Borders.{BeginsAt};
ghost use Rattle.station_view.specs.Spot.{EnclosePair, EncloseSine};

use crate::spot::pair_of;
use elements::Decimal;
use fixed_iv::Iv;
use station_file::{MaskRow, Sector};

/// A sector of an elevation mask, the azimuth in degrees at which it ends, and enclosures of the directions of both
/// borders and of the sine of its floor.
#[derive(Clone, Copy)]
pub struct EnclosedSector {
    pub sector: Sector,
    pub end: Decimal,
    pub sin_from: Iv,
    pub cos_from: Iv,
    pub sin_to: Iv,
    pub cos_to: Iv,
    pub sin_floor: Iv,
    pub ghost from: { EnclosePair (value sector.border) sin_from cos_from },
    pub ghost to: { EnclosePair (value end) sin_to cos_to },
    pub ghost floor: { EncloseSine (value sector.floor) sin_floor },
}

/// A sector of a row, counted from 0, with the border of the next one, and with its enclosures.
pub(crate) fn enclosed_at(row: &MaskRow, k: u32) -> EnclosedSector
    requires { k < length row.now }
    ensures sector { Some result.sector ≡ slice_get row.now k }
    ensures next { k + 1 < length row.now → BeginsAt result.end (slice_get row.now (k + 1)) }
    ensures first { length row.now ≤ k + 1 → BeginsAt result.end (slice_get row.now 0) }
{
    let sector = row.sector(k);
    if k + 1 < row.len() {
        return enclose(sector, row.sector(k + 1).border);
    }
    enclose(sector, row.sector(0).border)
}

/// The sector that ends at an azimuth, with its enclosures.
fn enclose(sector: Sector, end: Decimal) -> EnclosedSector
    requires border { IsAzimuth (value sector.border) }
    requires end { IsAzimuth (value end) }
    requires floor { IsFromTo (neg_ℤ (pos 90)) (pos 90) (value sector.floor) }
    ensures sector { result.sector ≡ sector }
    ensures end { result.end ≡ end }
{
    let (sin_from, cos_from) = pair_of(sector.border);
    let (sin_to, cos_to) = pair_of(end);
    let (sin_floor, _) = pair_of(sector.floor);
    EnclosedSector {
        sector,
        end,
        sin_from,
        cos_from,
        sin_to,
        cos_to,
        sin_floor,
    }
}
