//! The drag terms of higher order.
ghost use Rattle.fixed_iv.specs.Follows.{Follows1, Follows2, Follows3, Follows4};
ghost use Rattle.sgp4_init.specs.HeldSeries.{HoldsNoSeries, HoldsSeries};
ghost use Rattle.sgp4_init.specs.SeriesLines.{axis_times_xi, common_factor, fourth_term, longitude_cube, longitude_fifth, longitude_fourth, second_term, third_term};

use crate::numbers::number;
use fixed_iv::Enc;
use sgp4_motion::Recovered;

/// The drag terms of higher order, in units of 16,384 minutes.
#[derive(Clone, Copy)]
pub(crate) struct Series<E> {
    /// D2.
    pub(crate) d2: E,
    /// D3.
    pub(crate) d3: E,
    /// D4.
    pub(crate) d4: E,
    /// The term of the mean longitude with the cube of the time.
    pub(crate) t3cof: E,
    /// The term of the mean longitude with the fourth power of the time.
    pub(crate) t4cof: E,
    /// The term of the mean longitude with the fifth power of the time.
    pub(crate) t5cof: E,
}

/// The drag terms of higher order, of the semimajor axis, xi and C1. There are none in the simple form.
pub(crate) fn series_terms<E: Enc>(motion: &Recovered<E>, xi: E, c1: E) -> Series<E>
    ensures { HoldsSeries E.Enc motion.now xi c1 result }
{
    if motion.simple {
        return no_terms();
    }
    let axi = axis_times_xi(xi);
    let d2 = second_term(axi, c1);
    let w = common_factor(d2, xi, c1);
    let d3 = third_term(motion.a, w);
    let d4 = fourth_term(w, axi, motion.a, c1);
    Series {
        d2,
        d3,
        d4,
        t3cof: longitude_cube(d2, c1),
        t4cof: longitude_fourth(d2, d3, c1),
        t5cof: longitude_fifth(d2, d3, d4, c1),
    }
}

/// No drag terms of higher order.
fn no_terms<E: Enc>() -> Series<E>
    ensures { HoldsNoSeries E.Enc result }
{
    Series {
        d2: number(0, 1),
        d3: number(0, 1),
        d4: number(0, 1),
        t3cof: number(0, 1),
        t4cof: number(0, 1),
        t5cof: number(0, 1),
    }
}

/// The semimajor axis times xi, which is 1 + s xi.
pub(crate) fn axis_times_xi<E: Enc>(xi: E) -> E
    ensures { Follows1 E.Enc result axis_times_xi xi }
{
    number::<E>(1, 1).plus(number::<E>(6_456_135, 6_378_135).times(xi))
}

/// The drag term D2.
pub(crate) fn second_term<E: Enc>(axi: E, c1: E) -> E
    ensures { Follows2 E.Enc result second_term axi c1 }
{
    number::<E>(4, 1).times(axi).times(c1.times(c1))
}

/// The common factor of D3 and D4.
pub(crate) fn common_factor<E: Enc>(d2: E, xi: E, c1: E) -> E
    ensures { Follows3 E.Enc result common_factor d2 xi c1 }
{
    d2.times(xi).times(number::<E>(1, 3).times(c1))
}

/// The drag term D3.
pub(crate) fn third_term<E: Enc>(a: E, w: E) -> E
    ensures { Follows2 E.Enc result third_term a w }
{
    number::<E>(17, 1)
        .times(a)
        .plus(number(6_456_135, 6_378_135))
        .times(w)
}

/// The drag term D4.
pub(crate) fn fourth_term<E: Enc>(w: E, axi: E, a: E, c1: E) -> E
    ensures { Follows4 E.Enc result fourth_term w axi a c1 }
{
    let sum = number::<E>(221, 1)
        .times(a)
        .plus(number(200_140_185, 6_378_135));
    number::<E>(1, 2).times(w).times(axi).times(sum.times(c1))
}

/// The drag term of the mean longitude with the cube of the time.
pub(crate) fn longitude_cube<E: Enc>(d2: E, c1: E) -> E
    ensures { Follows2 E.Enc result longitude_cube d2 c1 }
{
    let square = c1.times(c1);
    d2.plus(square.plus(square))
}

/// The drag term of the mean longitude with the fourth power of the time.
pub(crate) fn longitude_fourth<E: Enc>(d2: E, d3: E, c1: E) -> E
    ensures { Follows3 E.Enc result longitude_fourth d2 d3 c1 }
{
    let inner = number::<E>(12, 1)
        .times(d2)
        .plus(number::<E>(10, 1).times(c1.times(c1)));
    number::<E>(1, 4).times(number::<E>(3, 1).times(d3).plus(c1.times(inner)))
}

/// The drag term of the mean longitude with the fifth power of the time.
pub(crate) fn longitude_fifth<E: Enc>(d2: E, d3: E, d4: E, c1: E) -> E
    ensures { Follows4 E.Enc result longitude_fifth d2 d3 d4 c1 }
{
    let square = c1.times(c1);
    let first = number::<E>(3, 1)
        .times(d4)
        .plus(number::<E>(12, 1).times(c1.times(d3)));
    let second = number::<E>(6, 1).times(d2.times(d2));
    let third = number::<E>(15, 1)
        .times(square)
        .times(d2.plus(d2).plus(square));
    number::<E>(1, 5).times(first.plus(second).plus(third))
}
