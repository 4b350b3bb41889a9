//! The least value of the eccentricity.
ghost use Rattle.sgp4_drag.specs.Raised.{IsRaised};

use fixed_iv::{Enc, Iv};

/// The eccentricity, raised to 0.000001 where it is smaller.
pub(crate) fn raised<E: Enc>(ecc: E) -> E
    ensures { IsRaised E.Enc ecc result }
{
    ecc.max_const(Iv::from_ratio(1, 1_000_000))
}
