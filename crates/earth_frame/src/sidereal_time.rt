//! The sidereal angle of 1982.
ghost use Rattle.std.specs.Prelude.{◌≡◌, pos};
ghost use Rattle.exact.specs.Rational.{ℚ};
ghost use Rattle.earth_frame.specs.Angles.{CoversAngleAfter, IsSpreadBy};
ghost use Rattle.earth_frame.specs.HalfTurns.{HoldsUpToTurns, IsWithinTurn};
ghost use Rattle.elements.specs.Offset.{IsOffset};
ghost use Rattle.earth_frame.specs.Offset.{IsNearInstant, ut1_nanos};
ghost use Rattle.earth_frame.specs.Over.{instant_after};
ghost use Rattle.earth_frame.specs.SiderealTurn.{CoversEachSiderealPair};
ghost use Rattle.earth_frame.specs.Slim.{IsSlim};
ghost use Rattle.earth_frame.specs.SlowTerms.{slow_half_turns, start_half_turns};
ghost use Rattle.earth_frame.specs.Spread.{IsUnitWide};
ghost use Rattle.fixed_iv.specs.Extent.{width_of};
ghost use Rattle.fixed_iv.specs.Holds.{Holds};
ghost use Rattle.sgp4_model.specs.Sidereal.{centuries, sidereal_angle};

use crate::reduced::half_turns;
use crate::rotation::Turn;
use elements::Instant;
use fixed_iv::{Enc, Iv};

/// Sine and cosine of the Greenwich mean sidereal angle of 1982, where UT1 is `dut1_ms` milliseconds more than UTC.
/// `t` covers the time from `base` in units of 16,384 minutes.
pub fn sidereal<E: Enc>(base: Instant, dut1_ms: i32, t: E) -> Turn<E>
    requires { IsOffset dut1_ms }
    ensures covers { CoversEachSiderealPair E.Enc base dut1_ms t result.sin result.cos }
    ensures narrow_sine { IsSpreadBy E.Enc 80 64 t result.sin }
    ensures narrow_cosine { IsSpreadBy E.Enc 80 64 t result.cos }
{
    let (sin, cos) = sidereal_angle(in_ut1(base, dut1_ms), t).sincos();
    Turn { sin, cos }
}

/// The nanoseconds of UT1 from 2000-01-01T12:00:00 to the instant.
fn in_ut1(at: Instant, dut1_ms: i32) -> i128
    requires { IsOffset dut1_ms }
    ensures value { result ≡ ut1_nanos dut1_ms at }
    ensures near { IsNearInstant result }
{
    at.nanos() as i128 + dut1_ms as i128 * 1_000_000
}

/// The angle in radians, less some whole turns. The base is in nanoseconds of UT1.
fn sidereal_angle<E: Enc>(base: i128, t: E) -> E
    requires { IsNearInstant base }
    ensures covers { CoversAngleAfter E.Enc base t result sidereal_angle }
    ensures narrow { IsSpreadBy E.Enc 80 48 t result }
{
    let rest = trig_enc::pi() * slow_half_turns(base, t.bounds());
    E::constant(rest).plus(E::constant(turn_rate()).times(t))
}

/// The radians that the Earth turns in 16,384 minutes, but for the terms in the square and the cube of time.
fn turn_rate() -> Iv
    ensures low { result.lo ≡ pos 20177369240802043 }
    ensures high { result.hi ≡ pos 20177369240802044 }
{
    Iv::from_ends(20_177_369_240_802_043, 20_177_369_240_802_044)
}

/// The angle in half turns but for the steady turn since the base, less some whole turns: where it stood at the base,
/// and the terms in the square and the cube of time. `t` holds the time from the base in units of 16,384 minutes.
fn slow_half_turns(base: i128, t: Iv) -> Iv
    requires { IsNearInstant base }
    ensures holds { (x : ℚ) → Holds t x → HoldsUpToTurns result (slow_half_turns base x) }
    ensures slim { IsUnitWide t → IsSlim (width_of t) 562950151158829 7025 2 result }
{
    let centuries = centuries(base, t);
    let square = centuries * centuries;
    let bend = square * Iv::from_ratio(93_104, 43_200_000_000);
    let twist = square * centuries * Iv::from_ratio(62, 432_000_000_000);
    start_half_turns(base) + bend - twist
}

/// Julian centuries from 2000-01-01T12:00:00.
fn centuries(base: i128, t: Iv) -> Iv
    requires { IsNearInstant base }
    ensures holds { (x : ℚ) → Holds t x → Holds result (centuries (instant_after base x)) }
    ensures slim { IsUnitWide t → IsSlim (width_of t) 160688000000000 6000 1 result }
{
    Iv::from_ratio(base, 3_155_760_000_000_000_000) + t * Iv::from_ratio(512, 1_643_625)
}

/// Where the angle stood at the base, by the terms that are linear in time, less some whole turns.
fn start_half_turns(base: i128) -> Iv
    requires { IsNearInstant base }
    ensures holds { HoldsUpToTurns result (start_half_turns base) }
    ensures within { IsWithinTurn result }
{
    half_turns(
        6_731_054_841 * 31_557_600_000_000_000_000 + base * 3_164_400_184_812_866,
        136_328_832_000_000_000_000_000_000_000,
    )
}
