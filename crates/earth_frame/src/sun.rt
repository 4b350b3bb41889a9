//! The direction of the Sun.
ghost use Rattle.exact.specs.Rational.{ℚ};
ghost use Rattle.earth_frame.specs.Angles.{CoversAngleAfter, IsSlimBy, IsSpreadBy};
ghost use Rattle.earth_frame.specs.HalfTurns.{HoldsUpToTurns, IsWithinTurn};
ghost use Rattle.earth_frame.specs.Slim.{IsSlim};
ghost use Rattle.earth_frame.specs.Spread.{IsUnitWide};
ghost use Rattle.earth_frame.specs.SteadyTerms.{daily_half_turns};
ghost use Rattle.earth_frame.specs.SunOver.{CoversEachLongitude, CoversEachSun, HoldsObliquity, anomaly_radians, longitude_radians};
ghost use Rattle.fixed_iv.specs.Extent.{width_of};
ghost use Rattle.fixed_iv.specs.Holds.{Holds};

use crate::reduced::half_turns;
use crate::steady::steady_angle;
use elements::Instant;
use fixed_iv::{Enc, Iv, Vec3};

/// The direction of the Sun by the low-precision formula, in the frame of the true equator and the mean equinox. `t`
/// covers the time from `base` in units of 16,384 minutes.
pub fn sun_direction<E: Enc>(base: Instant, t: E) -> Vec3<E>
    ensures covers { CoversEachSun E.Enc base t result }
    ensures narrow_x { IsSpreadBy E.Enc 2 256 t result.x }
    ensures narrow_y { IsSpreadBy E.Enc 2 256 t result.y }
    ensures narrow_z { IsSpreadBy E.Enc 2 256 t result.z }
{
    let (sine, cosine) = longitude(base, t).sincos();
    let (tilt_sine, tilt_cosine) = E::constant(tilt(base, t.bounds())).sincos();
    Vec3 {
        x: cosine,
        y: tilt_cosine.times(sine),
        z: tilt_sine.times(sine),
    }
}

/// The ecliptic longitude in radians, less some whole turns.
fn longitude<E: Enc>(base: Instant, t: E) -> E
    ensures covers { CoversEachLongitude E.Enc base t result }
    ensures narrow { IsSlimBy E.Enc 2291223897677962 52199 204 t result }
{
    let anomaly = mean_anomaly(base, t);
    let (sine, _) = anomaly.sincos();
    let (sine_of_twice, _) = anomaly.plus(anomaly).sincos();
    let centre = mean_longitude(base, t).plus(E::constant(
        trig_enc::pi() * Iv::from_ratio(1915, 180_000),
    ).times(sine));
    centre.plus(E::constant(trig_enc::pi() * Iv::from_ratio(20, 180_000)).times(sine_of_twice))
}

/// The mean anomaly in radians, less some whole turns.
fn mean_anomaly<E: Enc>(base: Instant, t: E) -> E
    ensures covers { CoversAngleAfter E.Enc base t result anomaly_radians }
    ensures narrow { IsSlimBy E.Enc 2044328789998351 20630 196 t result }
{
    steady_angle(
        anomaly_at_base(base),
        Iv::from_ratio(5_046_273_536, 81_000_000_000),
        t,
    )
}

/// The mean longitude in radians, less some whole turns.
fn mean_longitude<E: Enc>(base: Instant, t: E) -> E
    ensures covers { CoversAngleAfter E.Enc base t result longitude_radians }
    ensures narrow { IsSlimBy E.Enc 2044328789998351 20630 196 t result }
{
    steady_angle(
        longitude_at_base(base),
        Iv::from_ratio(5_046_514_688, 81_000_000_000),
        t,
    )
}

/// The mean anomaly at the base in half turns, less some whole turns.
fn anomaly_at_base(base: Instant) -> Iv
    ensures holds { HoldsUpToTurns result (daily_half_turns 357528 9856003 base) }
    ensures within { IsWithinTurn result }
{
    let nanos = base.nanos() as i128;
    half_turns(
        308_904_192_000_000_000_000_000 + 9_856_003 * nanos,
        155_520_000_000_000_000_000_000,
    )
}

/// The mean longitude at the base in half turns, less some whole turns.
fn longitude_at_base(base: Instant) -> Iv
    ensures holds { HoldsUpToTurns result (daily_half_turns 280460 9856474 base) }
    ensures within { IsWithinTurn result }
{
    let nanos = base.nanos() as i128;
    half_turns(
        242_317_440_000_000_000_000_000 + 9_856_474 * nanos,
        155_520_000_000_000_000_000_000,
    )
}

/// The obliquity of the ecliptic in radians, where `t` holds the time from the base.
fn tilt(base: Instant, t: Iv) -> Iv
    ensures holds { (x : ℚ) → Holds t x → HoldsObliquity result base x }
    ensures slim { IsUnitWide t → IsSlim (width_of t) 115188891460140 20980 4 result }
{
    let start = Iv::from_ratio(
        20_251_296_000_000_000_000_000 - 4 * base.nanos() as i128,
        155_520_000_000_000_000_000_000,
    );
    trig_enc::pi() * (start - t * Iv::from_ratio(2048, 81_000_000_000))
}
