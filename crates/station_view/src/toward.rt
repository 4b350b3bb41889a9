//! The direction at which a station sees a position.
ghost use Rattle.std.specs.Prelude.{◌↔◌, IfNone, IfSome, IsTrue};
ghost use Rattle.station_view.specs.Fine.{AreNarrowWhereFine, IsNarrowWhereFine};
ghost use Rattle.station_view.specs.Lengths.{AreLengthsOf, CoversEachLengths, HoldsEachLengths, IsDirectionOf};
ghost use Rattle.station_view.specs.SightReach.{LieAbove4096th};
ghost use Rattle.station_view.specs.Toward.{CoversEachSight, HoldsEachSight, HoldsEachToward, IsUnseen};

use crate::axes::{inner_product, turned};
use crate::spot::Spot;
use crate::station::Station;
use crate::vector::{Lengths, Sight};
use earth_frame::{Turn, to_earth};
use fixed_iv::{Enc, Iv, Vec3};

/// The direction at which the station sees a position, which is in Earth radii and in the frame of the true equator and the
/// mean equinox. None where the bounds of the square of the range do not lie above 1/4096.
pub fn sight<E: Enc>(station: &Station, turn: &Turn<E>, pos: &Vec3<E>) -> Option<Sight<E>>
    ensures covers { IfSome result (CoversEachSight E.Enc station.now turn.now pos.now) }
    ensures held { IfSome result (HoldsEachSight E.Enc station.now turn.now pos.now) }
    ensures narrow { IfSome result (IsNarrowWhereFine E.Enc station.now turn.now pos.now) }
    ensures none { IfNone result (IsUnseen E.Enc station.now turn.now pos.now) }
{
    let toward = toward(station, turn, pos);
    let square = inner_product(&toward, &toward);
    if !lie_above_4096th(square.bounds()) {
        return None;
    }
    Some(direction(&along(&station.spot, &toward, square.sqrt())))
}

/// The vector from the station to a position as lengths along the local axes, and the range: in Earth radii, as the position,
/// which is in the frame of the true equator and the mean equinox.
pub fn lengths<E: Enc>(station: &Station, turn: &Turn<E>, pos: &Vec3<E>) -> Lengths<E>
    ensures covers { CoversEachLengths E.Enc station.now turn.now pos.now result }
    ensures held { HoldsEachLengths E.Enc station.now turn.now pos.now result }
    ensures narrow { AreNarrowWhereFine E.Enc station.now turn.now pos.now result }
{
    let toward = toward(station, turn, pos);
    let range = inner_product(&toward, &toward).sqrt();
    along(&station.spot, &toward, range)
}

/// The vector from the station to a position, Earth-fixed.
fn toward<E: Enc>(station: &Station, turn: &Turn<E>, pos: &Vec3<E>) -> Vec3<E>
    ensures { HoldsEachToward E.Enc station.now turn.now pos.now result }
{
    let fixed = to_earth(turn, pos);
    Vec3 {
        x: fixed.x.minus(E::constant(station.place.x)),
        y: fixed.y.minus(E::constant(station.place.y)),
        z: fixed.z.minus(E::constant(station.place.z)),
    }
}

/// Whether the bounds lie above 1/4096.
fn lie_above_4096th(bounds: Iv) -> bool
    ensures { IsTrue result ↔ LieAbove4096th bounds }
{
    let (low, _) = bounds.ends();
    low > 68_719_476_736
}

/// A vector along the local axes, with its length.
fn along<E: Enc>(spot: &Spot, toward: &Vec3<E>, range: E) -> Lengths<E>
    ensures { AreLengthsOf E.Enc spot.now toward.now range result }
{
    let (out, east) = turned(spot.sin_lon, spot.cos_lon, toward.x, toward.y);
    let (up, north) = turned(spot.sin_lat, spot.cos_lat, out, toward.z);
    Lengths {
        east,
        north,
        up,
        range,
    }
}

/// The direction of a vector, along the local axes.
fn direction<E: Enc>(lengths: &Lengths<E>) -> Sight<E>
    ensures { IsDirectionOf E.Enc lengths.now result }
{
    Sight {
        east: lengths.east.divided(lengths.range),
        north: lengths.north.divided(lengths.range),
        up: lengths.up.divided(lengths.range),
    }
}
