//! The secular rates by oblateness.
ghost use Rattle.fixed_iv.specs.Follows.{Follows2, Follows4, Follows5, Follows6, FollowsRatio1};
ghost use Rattle.sgp4_init.specs.HeldRates.{HoldsRates};
ghost use Rattle.sgp4_init.specs.RateLines.{first_factor, in_squares, inverse_square, mean_anomaly_rate, node_rate, perigee_rate, second_factor, third_factor};

use crate::numbers::number;
use fixed_iv::Enc;
use sgp4_motion::Recovered;

/// The rates that are used again, per 16,384 minutes.
#[derive(Clone, Copy)]
pub(crate) struct Rates<E> {
    /// The first common factor, 1.5 J2 n0 / p^2.
    pub(crate) w1: E,
    /// The rate of the mean anomaly.
    pub(crate) mdot: E,
    /// The rate of the argument of perigee.
    pub(crate) wdot: E,
    /// The rate of the node.
    pub(crate) odot: E,
}

/// The secular rates.
pub(crate) fn secular_rates<E: Enc>(motion: &Recovered<E>) -> Rates<E>
    ensures { HoldsRates E.Enc motion.now result }
{
    let m = motion;
    let ip2 = inverse_square(m.p);
    let w1 = first_factor(m.n0, ip2);
    let w2 = second_factor(w1, ip2);
    let w3 = third_factor(m.n0, ip2);
    let c2 = m.c.times(m.c);
    let of_anomaly = in_squares(number(13, 1), number(78, 1), number(137, 1), c2);
    let second = in_squares(number(7, 1), number(114, 1), number(395, 1), c2);
    let third = in_squares(number(3, 1), number(36, 1), number(49, 1), c2);
    Rates {
        w1,
        mdot: mean_anomaly_rate(m.n0, w1, w2, m.b0, m.con41, of_anomaly),
        wdot: perigee_rate(w1, w2, w3, m.con42, second, third),
        odot: node_rate(w1, w2, w3, m.c, c2),
    }
}

/// 1 over the square.
pub(crate) fn inverse_square<E: Enc>(p: E) -> E
    ensures { FollowsRatio1 E.Enc result inverse_square p }
{
    number::<E>(1, 1).divided(p.times(p))
}

/// The first common factor: 1.5 J2 n0 / p^2.
pub(crate) fn first_factor<E: Enc>(n0: E, ip2: E) -> E
    ensures { Follows2 E.Enc result first_factor n0 ip2 }
{
    number::<E>(1_623_924, 1_000_000_000).times(n0).times(ip2)
}

/// The second common factor: 0.5 w1 J2 / p^2.
pub(crate) fn second_factor<E: Enc>(w1: E, ip2: E) -> E
    ensures { Follows2 E.Enc result second_factor w1 ip2 }
{
    number::<E>(541_308, 1_000_000_000).times(w1).times(ip2)
}

/// The third common factor: -0.46875 J4 n0 / p^4.
pub(crate) fn third_factor<E: Enc>(n0: E, ip2: E) -> E
    ensures { Follows2 E.Enc result third_factor n0 ip2 }
{
    number::<E>(2_483_955, 3_200_000_000_000)
        .times(n0)
        .times(ip2)
        .times(ip2)
}

/// A polynomial in the square of the cosine of the inclination.
pub(crate) fn in_squares<E: Enc>(constant: E, square: E, fourth: E, c2: E) -> E
    ensures { Follows4 E.Enc result in_squares constant square fourth c2 }
{
    constant
        .minus(square.times(c2))
        .plus(fourth.times(c2.times(c2)))
}

/// The rate of the mean anomaly.
pub(crate) fn mean_anomaly_rate<E: Enc>(n0: E, w1: E, w2: E, b0: E, con41: E, shape: E) -> E
    ensures { Follows6 E.Enc result mean_anomaly_rate n0 w1 w2 b0 con41 shape }
{
    let first = number::<E>(1, 2).times(w1).times(b0).times(con41);
    let second = number::<E>(1, 16).times(w2).times(b0).times(shape);
    n0.plus(first).plus(second)
}

/// The rate of the argument of perigee.
pub(crate) fn perigee_rate<E: Enc>(w1: E, w2: E, w3: E, con42: E, second: E, third: E) -> E
    ensures { Follows6 E.Enc result perigee_rate w1 w2 w3 con42 second third }
{
    let first = number::<E>(-1, 2).times(w1).times(con42);
    first
        .plus(number::<E>(1, 16).times(w2).times(second))
        .plus(w3.times(third))
}

/// The rate of the node.
pub(crate) fn node_rate<E: Enc>(w1: E, w2: E, w3: E, c: E, c2: E) -> E
    ensures { Follows5 E.Enc result node_rate w1 w2 w3 c c2 }
{
    let second = number::<E>(1, 2)
        .times(w2)
        .times(number::<E>(4, 1).minus(number::<E>(19, 1).times(c2)));
    let third = w3
        .plus(w3)
        .times(number::<E>(3, 1).minus(number::<E>(7, 1).times(c2)));
    second.plus(third).times(c).minus(w1.times(c))
}
