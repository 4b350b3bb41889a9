//! A place on the Earth, by its two angles.
ghost use Rattle.std.specs.Prelude.{pos, neg_ℤ, ◌≡◌};
ghost use Rattle.decimals.specs.Decimal.{value};
ghost use Rattle.elements.specs.Elements.{IsFromTo};
ghost use Rattle.exact.specs.Rational.{◌*ℚ◌, ratio};
ghost use Rattle.fixed_iv.specs.Holds.{IsTightest};
ghost use Rattle.station_view.specs.Spot.{AreSlim, EnclosePair};

use elements::Decimal;
use fixed_iv::Iv;

/// A place on the Earth: its geodetic latitude and its longitude in degrees, and enclosures of their sines and cosines.
#[derive(Clone, Copy)]
pub struct Spot {
    pub lat: Decimal,
    pub lon: Decimal,
    pub sin_lat: Iv,
    pub cos_lat: Iv,
    pub sin_lon: Iv,
    pub cos_lon: Iv,
    pub ghost lat_range: { IsFromTo (neg_ℤ (pos 90)) (pos 90) (value lat) },
    pub ghost lon_range: { IsFromTo (neg_ℤ (pos 180)) (pos 360) (value lon) },
    pub ghost of_lat: { EnclosePair (value lat) sin_lat cos_lat },
    pub ghost of_lon: { EnclosePair (value lon) sin_lon cos_lon },
    pub ghost lat_slim: { AreSlim sin_lat cos_lat },
    pub ghost lon_slim: { AreSlim sin_lon cos_lon },
}

impl Spot {
    /// The place at a latitude from -90 to 90 degrees and a longitude from -180 to 360.
    pub fn fix(lat: Decimal, lon: Decimal) -> Spot
        requires lat_range { IsFromTo (neg_ℤ (pos 90)) (pos 90) (value lat) }
        requires lon_range { IsFromTo (neg_ℤ (pos 180)) (pos 360) (value lon) }
        ensures lat { result.lat ≡ lat }
        ensures lon { result.lon ≡ lon }
    {
        let (sin_lat, cos_lat) = pair_of(lat);
        let (sin_lon, cos_lon) = pair_of(lon);
        Spot {
            lat,
            lon,
            sin_lat,
            cos_lat,
            sin_lon,
            cos_lon,
        }
    }
}

/// The sine and the cosine of so many degrees, enclosed.
pub(crate) fn pair_of(degrees: Decimal) -> (Iv, Iv)
    requires { IsFromTo (neg_ℤ (pos 360)) (pos 360) (value degrees) }
    ensures pair { EnclosePair (value degrees) result.0 result.1 }
    ensures slim { AreSlim result.0 result.1 }
{
    trig_enc::sincos(trig_enc::pi() * half_turns(degrees))
}

/// So many degrees in half turns.
#[tactic(auto, using(decimals::proofs::UnitsLemmas::ten_pow_fits))]
fn half_turns(degrees: Decimal) -> Iv
    ensures { IsTightest (λ x. x ≡ value degrees *ℚ ratio (pos 1) 180) result }
{
    let scale = 10u64.pow(u32::from(degrees.places()));
    Iv::from_ratio(i128::from(degrees.digits()), 180 * i128::from(scale))
}
