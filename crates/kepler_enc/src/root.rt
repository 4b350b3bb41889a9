//! The roots of Kepler's equation.
ghost use Rattle.std.specs.Prelude.{◌≡◌, ◌↔◌, IfSome, IsNone};
ghost use Rattle.kepler_enc.specs.Guard.{IsGuardedSum, IsUnguarded};
ghost use Rattle.kepler_enc.specs.Roots.{CoversRoots, HoldsRoots, HoldsRootsNear};
ghost use Rattle.kepler_enc.specs.Step.{IsTried};

use crate::equation::{residual, rise, stepped};
use crate::guess::guess;
use crate::radius::{about_zero, ball_radius, rest_radius};
use crate::sizes::{ONE, guarded_sum, largest};
use fixed_iv::{Enc, Iv};

/// The angles that solve Kepler's equation for `u`, `ax` and `ay`, which are in radians, and without a unit. None where
/// the bounds of `ax` and `ay` do not show that their sizes add up to less than 1.
pub fn kepler<E: Enc>(u: E, ax: E, ay: E) -> Option<E>
    ensures covers { IfSome result (CoversRoots E.Enc u ax ay) }
    ensures held { IfSome result (HoldsRoots E.Enc u ax ay) }
    ensures none { IsNone result ↔ IsUnguarded (E.extent ax).ends (E.extent ay).ends }
{
    let (of_u, of_ax, of_ay) = (u.bounds(), ax.bounds(), ay.bounds());
    let sum = guarded_sum(of_ax, of_ay)?;
    if !of_u.is_bounded() {
        return Some(E::constant(Iv::WHOLE));
    }
    let point = guess::<E>(of_u, of_ax, of_ay);
    Some(root_near(point, u, ax, ay, sum))
}

/// The roots, from a point near them. `sum` is the sum of the largest sizes of an end of `ax` and of `ay`. The answer
/// is narrow where the point leaves little of the equation.
fn root_near<E: Enc>(point: Iv, u: E, ax: E, ay: E, sum: u64) -> E
    requires point { point.lo ≡ point.hi }
    requires guarded { IsGuardedSum (E.extent ax).ends (E.extent ay).ends sum }
    ensures { HoldsRootsNear E.Enc u ax ay point sum result }
{
    let (angle, sine, cosine, left) = tried(point, u, ax, ay);
    let bounds = left.bounds();
    if !bounds.is_bounded() {
        return E::constant(Iv::WHOLE);
    }
    let radius = ball_radius(largest(bounds), sum);
    if radius > u128::from(ONE) || sum > ONE / 2 {
        return E::constant(point + about_zero(radius));
    }
    let rest = about_zero(rest_radius(radius as u64, sum));
    let steepness = rise(ax, ay, sine, cosine);
    stepped(angle, left, steepness, E::constant(rest))
}

/// The angle at a point, its sine and its cosine, and what it leaves of the equation.
fn tried<E: Enc>(point: Iv, u: E, ax: E, ay: E) -> (E, E, E, E)
    requires { point.lo ≡ point.hi }
    ensures { IsTried E.Enc point u ax ay result }
{
    let angle = E::constant(point);
    let (sine, cosine) = angle.sincos();
    (
        angle,
        sine,
        cosine,
        residual(u, ax, ay, angle, sine, cosine),
    )
}
