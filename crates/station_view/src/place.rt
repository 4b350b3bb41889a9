//! Where a station stands, Earth-fixed.
ghost use Rattle.std.specs.Prelude.{◌≡◌};
ghost use Rattle.decimals.specs.Decimal.{value};
ghost use Rattle.fixed_iv.specs.Holds.{IsTightest};
ghost use Rattle.sgp4_model.specs.StationPlace.{in_km};
ghost use Rattle.sgp4_model.specs.Wgs84.{axes_squared, equator_km};
ghost use Rattle.station_view.specs.PlaceReach.{EnclosesNumber, IsPlaceOf, IsStretchOf, axes_reach, equator_reach};

use crate::spot::Spot;
use elements::Decimal;
use fixed_iv::{Enc, Iv, Vec3};

/// A height in metres, in kilometres.
#[tactic(auto, using(decimals::proofs::UnitsLemmas::ten_pow_fits))]
pub(crate) fn in_km(height: Decimal) -> Iv
    ensures { IsTightest (λ x. x ≡ in_km (value height)) result }
{
    let scale = 10u64.pow(u32::from(height.places()));
    Iv::from_ratio(i128::from(height.digits()), 1000 * i128::from(scale))
}

/// The square of the ratio of the ellipsoid's axes.
fn axes_squared<E: Enc>() -> E
    ensures { EnclosesNumber E.Enc result axes_squared axes_reach }
{
    E::constant(Iv::from_ratio(
        88_361_856_960_383_362_414_969,
        88_957_371_407_509_362_414_969,
    ))
}

/// The ellipsoid's equatorial radius in kilometres.
fn equator_km<E: Enc>() -> E
    ensures { EnclosesNumber E.Enc result equator_km equator_reach }
{
    E::constant(Iv::from_ratio(6_378_137, 1000))
}

/// One over the root of the square of the latitude's cosine and the axes' square times that of its sine.
fn stretch<E: Enc>(spot: &Spot) -> E
    ensures { IsStretchOf E.Enc spot.now result }
{
    let sine = E::constant(spot.sin_lat);
    let cosine = E::constant(spot.cos_lat);
    let square = cosine
        .times(cosine)
        .plus(axes_squared::<E>().times(sine.times(sine)));
    E::constant(Iv::from_ratio(1, 1)).divided(square.sqrt())
}

/// The place at a height in kilometres, in Earth radii.
pub(crate) fn place_of<E: Enc>(spot: &Spot, height: Iv) -> Vec3<E>
    ensures { IsPlaceOf E.Enc spot.now height result }
{
    let equator = equator_km::<E>().times(stretch(spot));
    let above = E::constant(height);
    let radius = E::constant(Iv::from_ratio(6_378_135, 1000));
    let level = equator
        .plus(above)
        .times(E::constant(spot.cos_lat))
        .divided(radius);
    let axial = equator
        .times(axes_squared())
        .plus(above)
        .times(E::constant(spot.sin_lat));
    Vec3 {
        x: level.times(E::constant(spot.cos_lon)),
        y: level.times(E::constant(spot.sin_lon)),
        z: axial.divided(radius),
    }
}
