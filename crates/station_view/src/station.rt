//! A station, with its sines and cosines.
ghost use Rattle.std.specs.Prelude.{◌≡◌, IfOk, map, pos, neg_ℤ};
ghost use Rattle.decimals.specs.Decimal.{value};
ghost use Rattle.elements.specs.Elements.{IsFromTo};
ghost use Rattle.station_file.specs.Rows.{IsStationRow};
ghost use Rattle.station_view.specs.Complete.{HoldsEachDirection};
ghost use Rattle.station_view.specs.Masks.{sector_of};
ghost use Rattle.station_view.specs.EnclosedPlace.{EnclosePlace};

use crate::mask::Mask;
use crate::place::{in_km, place_of};
use crate::spot::Spot;
use elements::{Decimal, OutOfMemory};
use enc_plain::Plain;
use fixed_iv::{Enc, Iv, Vec3};
use station_file::StationRow;
use std::alloc::Global;

/// A station: its place on the Earth, its height above the ellipsoid in metres, an enclosure of its Earth-fixed position in
/// Earth radii, and its elevation mask. It keeps its own memory.
#[derive(Drop)]
pub struct Station {
    pub spot: Spot,
    pub height: Decimal,
    pub place: Vec3<Iv>,
    pub mask: Mask,
    pub ghost height_range: { IsFromTo (neg_ℤ (pos 500)) (pos 9000) (value height) },
    pub ghost of_place: { EnclosePlace (value spot.lat) (value spot.lon) (value height) place },
}

impl Station {
    /// The station of a row.
    pub fn fix(alloc: Global, row: &StationRow) -> Result<Station, OutOfMemory>
        requires { IsStationRow row.now }
        ensures lat { IfOk result (λ station. station.spot.lat ≡ row.now.lat) }
        ensures lon { IfOk result (λ station. station.spot.lon ≡ row.now.lon) }
        ensures height { IfOk result (λ station. station.height ≡ row.now.height) }
        ensures mask { IfOk result (λ station. map sector_of station.mask ≡ row.now.mask) }
        ensures complete { IfOk result (λ station. HoldsEachDirection station.mask) }
    {
        let mask = Mask::fix(alloc, &row.mask)?;
        let spot = Spot::fix(row.lat, row.lon);
        let place = enclosed_place(&spot, row.height);
        Ok(Station {
            spot,
            height: row.height,
            place,
            mask,
        })
    }
}

/// The place at a height in metres, enclosed.
fn enclosed_place(spot: &Spot, height: Decimal) -> Vec3<Iv>
    requires { IsFromTo (neg_ℤ (pos 500)) (pos 9000) (value height) }
    ensures { EnclosePlace (value spot.now.lat) (value spot.now.lon) (value height) result }
{
    let place: Vec3<Plain> = place_of(spot, in_km(height));
    Vec3 {
        x: place.x.bounds(),
        y: place.y.bounds(),
        z: place.z.bounds(),
    }
}
