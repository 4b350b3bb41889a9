//! Angles in half turns, less some whole turns.
ghost use Rattle.std.specs.Prelude.{◌≤ℤ◌, ◌<ℤ◌, ◌*ℤ◌, ◌^◌, pos, unsigned_abs};
ghost use Rattle.exact.specs.Rational.{ratio};
ghost use Rattle.earth_frame.specs.HalfTurns.{HoldsUpToTurns, IsWithinTurn};

use fixed_iv::Iv;

/// The number `num / den` of half turns, less as many whole turns as leave from 0 to 2.
pub(crate) fn half_turns(num: i128, den: i128) -> Iv
    requires positive { pos 0 <ℤ den }
    requires room { den ≤ℤ pos (2 ^ 120) }
    ensures holds { HoldsUpToTurns result (ratio num (unsigned_abs den)) }
    ensures within { IsWithinTurn result }
{
    Iv::from_ratio(num.rem_euclid(2 * den), den)
}
