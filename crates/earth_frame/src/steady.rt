//! Angles that grow steadily.
ghost use Rattle.earth_frame.specs.Steady.{CoversSteadyAngle, IsNarrowSteadyAngle};

use fixed_iv::{Enc, Iv};

/// The angle in radians that stands at `start` half turns, less some whole turns, and grows by `rate` half turns in a
/// unit of `t`.
pub(crate) fn steady_angle<E: Enc>(start: Iv, rate: Iv, t: E) -> E
    ensures covers { CoversSteadyAngle E.Enc start rate t result }
    ensures narrow { IsNarrowSteadyAngle E.Enc start rate t result }
{
    let begin = E::constant(trig_enc::pi() * start);
    begin.plus(E::constant(trig_enc::pi() * rate).times(t))
}
