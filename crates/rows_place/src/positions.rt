//! Positions at single instants, against values from outside.
ghost use Rattle.std.specs.Prelude.{◌<◌};

use crate::expected::{SETS, TIMES, number};
use enc_plain::Plain;
use fixed_iv::{Enc, Iv, Vec3};
use sgp4_drag::secular;
use sgp4_periodic::place;
use sgp4_shape::{Consts, Mean};

/// The greatest width that is expected at mean elements that are known to a unit of 2^-48, in such units.
const SLIM: i64 = 1024;

/// A millionth of an Earth radius, in units of 2^-48.
const WIDEST: i64 = 281_474_976;

/// An enclosure of the numbers from `floor` to `floor + 1`, in units of 2^-48.
fn unit<E: Enc>(floor: i64) -> E {
    E::constant(Iv::from_ratio(2 * i128::from(floor) + 1, 562_949_953_421_312))
}

/// The constants whose numbers begin at this place.
fn consts_of<E: Enc>(start: usize) -> Consts<E>
    requires { start < 10000 }
{
    Consts {
        i: unit(number(start)),
        c: unit(number(start + 1)),
        si: unit(number(start + 2)),
        e: unit(number(start + 3)),
        w0: unit(number(start + 4)),
        o0: unit(number(start + 5)),
        m0: unit(number(start + 6)),
        bstar: unit(number(start + 7)),
        a: unit(number(start + 8)),
        eta: unit(number(start + 9)),
        con41: unit(number(start + 10)),
        c5: unit(number(start + 11)),
        xmcof: unit(number(start + 12)),
        xlcof: unit(number(start + 13)),
        aycof: unit(number(start + 14)),
        delmo: unit(number(start + 15)),
        sin_m0: unit(number(start + 16)),
        n0: unit(number(start + 17)),
        mdot: unit(number(start + 18)),
        wdot: unit(number(start + 19)),
        odot: unit(number(start + 20)),
        c1: unit(number(start + 21)),
        c4: unit(number(start + 22)),
        omgcof: unit(number(start + 23)),
        t2cof: unit(number(start + 24)),
        d2: unit(number(start + 25)),
        nodecf: unit(number(start + 26)),
        t3cof: unit(number(start + 27)),
        d3: unit(number(start + 28)),
        t4cof: unit(number(start + 29)),
        d4: unit(number(start + 30)),
        t5cof: unit(number(start + 31)),
    }
}

/// The mean elements whose numbers begin at this place.
fn mean_of<E: Enc>(start: usize) -> Mean<E>
    requires { start < 10000 }
{
    Mean {
        am: unit(number(start)),
        em: unit(number(start + 1)),
        ml: unit(number(start + 2)),
        wm: unit(number(start + 3)),
        om: unit(number(start + 4)),
    }
}

/// Where the constants of a set begin, and the row of one of its times.
fn places_of(set: usize, time: usize) -> (usize, usize)
    requires set { set < 20 }
    requires time { time < 10 }
    ensures start { result.0 < 3000 }
    ensures row { result.1 < 3000 }
{
    let start = set * (32 + 9 * TIMES);
    (start, start + 32 + 9 * time)
}

/// The position at mean elements, through any enclosure.
fn place_of<E: Enc>(consts: &Consts<E>, mean: &Mean<E>) -> Option<Vec3<E>> {
    place(consts, mean)
}

/// The position so many minutes from the epoch.
fn place_at<E: Enc>(consts: &Consts<E>, minutes: i64) -> Option<Vec3<E>> {
    let t = E::constant(Iv::from_ratio(i128::from(minutes), 16384));
    place(consts, &secular(consts, t)?)
}

/// Whether the bounds hold the unit and are so narrow.
fn holds(bounds: Iv, floor: i64, widest: i64) -> bool {
    let (lo, hi) = bounds.ends();
    lo <= floor && floor < hi && hi.saturating_sub(lo) <= widest
}

/// Whether each coordinate holds the unit that is written from this place on, and is so narrow.
fn all_hold(position: Option<Vec3<Plain>>, start: usize, widest: i64) -> bool
    requires { start < 10000 }
{
    match position {
        Some(at) => {
            holds(at.x.bounds(), number(start), widest)
                && holds(at.y.bounds(), number(start + 1), widest)
                && holds(at.z.bounds(), number(start + 2), widest)
        }
        None => false,
    }
}

#[test]
fn positions_hold_the_values_from_outside(rt: HostRuntime) {
    for set in 0..SETS {
        for time in 0..TIMES {
            let (start, row) = places_of(set, time);
            let consts: Consts<Plain> = consts_of(start);
            assert!(rt; all_hold(place_of(&consts, &mean_of(row + 1)), row + 6, SLIM));
        }
    }
}

#[test]
fn positions_at_a_time_hold_the_values_from_outside(rt: HostRuntime) {
    for set in 0..SETS {
        for time in 0..TIMES {
            let (start, row) = places_of(set, time);
            let consts: Consts<Plain> = consts_of(start);
            assert!(rt; all_hold(place_at(&consts, number(row)), row + 6, WIDEST));
        }
    }
}

/// The semimajor axis and the eccentricity in place of those of a row, in units of 2^-48.
const OUTSIDE: [(i64, i64); 5] = [
    // an orbit below 1 Earth radius
    (225_179_981_368_525, 56_294_995_342_131),
    // a circle at 1.01 Earth radii
    (284_289_726_477_762, 281_474_977),
    // a semimajor axis of 0, and one below 0
    (0, 281_474_977),
    (-281_474_976_710_656, 281_474_977),
    // an eccentricity near 1
    (300_027_452_331_351, 281_474_976_429_181),
];

#[test]
fn no_position_outside_the_guards(rt: HostRuntime) {
    for set in 0..SETS {
        let (start, row) = places_of(set, 4);
        let consts: Consts<Plain> = consts_of(start);
        for (axis, eccentricity) in OUTSIDE {
            let mut mean: Mean<Plain> = mean_of(row + 1);
            mean.am = unit(axis);
            mean.em = unit(eccentricity);
            assert!(rt; place_of(&consts, &mean).is_none());
        }
    }
}

/// A semimajor axis of 1.03 Earth radii, and an eccentricity of a millionth.
const CIRCLE_OUTSIDE: (i64, i64) = (289_919_226_011_975, 281_474_977);

#[test]
fn positions_from_the_least_distance_on(rt: HostRuntime) {
    for set in 0..SETS {
        let (start, row) = places_of(set, 4);
        let consts: Consts<Plain> = consts_of(start);
        let mut mean: Mean<Plain> = mean_of(row + 1);
        mean.am = unit(CIRCLE_OUTSIDE.0);
        mean.em = unit(CIRCLE_OUTSIDE.1);
        assert!(rt; place_of(&consts, &mean).is_some());
    }
}
