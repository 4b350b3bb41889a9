//! The terms of the density of the air.
ghost use Rattle.fixed_iv.specs.Follows.{Follows1};
ghost use Rattle.sgp4_init.specs.DensityLines.{above_base, fourth_power, less_square};
ghost use Rattle.sgp4_init.specs.HeldDensity.{HoldsDensity, IsOverRoot};

use crate::numbers::number;
use crate::size::size;
use fixed_iv::Enc;
use sgp4_motion::Recovered;

/// The terms of the density of the air that are used again. Lengths are in Earth radii.
#[derive(Clone, Copy)]
pub(crate) struct Density<E> {
    /// 1 over the semimajor axis less s.
    pub(crate) xi: E,
    /// The eccentricity as drag sees it.
    pub(crate) eta: E,
    /// xi over psi.
    pub(crate) xp: E,
    /// (q - s)^4 xi^4.
    pub(crate) coef: E,
    /// The same over psi to the power 3.5.
    pub(crate) coef1: E,
}

/// The terms of the density. Where the perigee is high, xi over psi is (a - s) over (a - s + e a) and over the radius of the
/// perigee less s.
pub(crate) fn density_terms<E: Enc>(motion: &Recovered<E>) -> Density<E>
    ensures { HoldsDensity E.Enc motion.now result }
{
    let above = above_base(motion.a);
    let ea = motion.e.times(motion.a);
    let eta = ea.divided(above);
    let xi = number::<E>(1, 1).divided(above);
    let share = above.divided(above.plus(ea));
    let xp = share.divided(above_base(motion.rp));
    let rest = less_square(eta);
    let psi = size(rest);
    Density {
        xi,
        eta,
        xp,
        coef: fourth_power(xi),
        coef1: fourth_power(xp).times(over_root(psi)),
    }
}

/// A radius less the parameter s of the density.
pub(crate) fn above_base<E: Enc>(radius: E) -> E
    ensures { Follows1 E.Enc result above_base radius }
{
    radius.minus(number(6_456_135, 6_378_135))
}

/// The fourth power of a number times q less s.
pub(crate) fn fourth_power<E: Enc>(x: E) -> E
    ensures { Follows1 E.Enc result fourth_power x }
{
    let scaled = number::<E>(42_000, 6_378_135).times(x);
    let square = scaled.times(scaled);
    square.times(square)
}

/// 1 less the square of eta.
pub(crate) fn less_square<E: Enc>(eta: E) -> E
    ensures { Follows1 E.Enc result less_square eta }
{
    number::<E>(1, 1).minus(eta.times(eta))
}

/// A number over its square root.
pub(crate) fn over_root<E: Enc>(psi: E) -> E
    ensures { IsOverRoot E.Enc psi result }
{
    psi.divided(psi.sqrt())
}
