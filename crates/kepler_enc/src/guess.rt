//! A first guess of the root, by Newton's rule at points.
ghost use Rattle.std.specs.Prelude.{◌≡◌, ◌≤ℤ◌, T};
ghost use Rattle.kepler_enc.specs.Rounds.{BettersAngle, GuessesWell, StepsNarrowly};

use crate::sizes::one;
use fixed_iv::{Enc, Iv};

/// A point near the root for the middles of these bounds. It leaves little of the equation if the sizes of `ax` and
/// `ay` are small enough; who calls verifies it.
pub(crate) fn guess<E: Enc>(u: Iv, ax: Iv, ay: Iv) -> Iv
    ensures point { result.lo ≡ result.hi }
    ensures good { T E.tells → GuessesWell u ax ay result }
{
    let (u, ax, ay) = (middle(u), middle(ax), middle(ay));
    let first = bettered::<E>(u, u, ax, ay);
    let second = bettered::<E>(first, u, ax, ay);
    bettered::<E>(second, u, ax, ay)
}

/// A point nearer to the root for these points, by a round of Newton's rule.
fn bettered<E: Enc>(angle: Iv, u: Iv, ax: Iv, ay: Iv) -> Iv
    requires angle { angle.lo ≡ angle.hi }
    requires u { u.lo ≡ u.hi }
    requires ax { ax.lo ≡ ax.hi }
    requires ay { ay.lo ≡ ay.hi }
    ensures point { result.lo ≡ result.hi }
    ensures better { T E.tells → BettersAngle u ax ay angle result }
{
    let better = newton::<E>(angle, u, ax, ay);
    if better.is_bounded() {
        middle(better)
    } else {
        angle
    }
}

/// Where a step of Newton's rule leads.
fn newton<E: Enc>(angle: Iv, u: Iv, ax: Iv, ay: Iv) -> Iv
    requires angle { angle.lo ≡ angle.hi }
    requires u { u.lo ≡ u.hi }
    requires ax { ax.lo ≡ ax.hi }
    requires ay { ay.lo ≡ ay.hi }
    ensures { T E.tells → StepsNarrowly u ax ay angle result }
{
    let (sine, cosine) = E::constant(angle).sincos();
    let (sine, cosine) = (sine.bounds(), cosine.bounds());
    let residual = angle + ay * cosine - ax * sine - u;
    let rise = one() - ay * sine - ax * cosine;
    angle - residual / rise
}

/// The point in the middle, to a unit, within the bounds.
fn middle(bounds: Iv) -> Iv
    ensures point { result.lo ≡ result.hi }
    ensures low { bounds.lo ≤ℤ result.lo }
    ensures high { result.lo ≤ℤ bounds.hi }
{
    let (low, high) = bounds.ends();
    let units = low / 2 + high / 2;
    if units < low {
        Iv::from_ends(low, low)
    } else if high < units {
        Iv::from_ends(high, high)
    } else {
        Iv::from_ends(units, units)
    }
}
