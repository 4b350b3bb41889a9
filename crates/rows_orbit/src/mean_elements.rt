//! Mean elements at single instants, against values from outside.
use crate::expected::ROWS;
use enc_plain::Plain;
use fixed_iv::{Enc, Iv};
use sgp4_drag::secular;
use sgp4_shape::{Consts, Mean, lift};

/// The greatest width that is expected of mean elements at one instant, in units of 2^-48.
const WIDEST: i64 = 1 << 14;

/// An enclosure of the numbers from `floor` to `floor + 1`, in units of 2^-48.
fn unit<E: Enc>(floor: i64) -> E {
    E::constant(Iv::from_ratio(2 * i128::from(floor) + 1, 562_949_953_421_312))
}

/// Constants from whole numbers of units.
fn consts_of<E: Enc>(fields: &[i64; 32]) -> Consts<E> {
    Consts {
        i: unit(fields[0]),
        c: unit(fields[1]),
        si: unit(fields[2]),
        e: unit(fields[3]),
        w0: unit(fields[4]),
        o0: unit(fields[5]),
        m0: unit(fields[6]),
        bstar: unit(fields[7]),
        a: unit(fields[8]),
        eta: unit(fields[9]),
        con41: unit(fields[10]),
        c5: unit(fields[11]),
        xmcof: unit(fields[12]),
        xlcof: unit(fields[13]),
        aycof: unit(fields[14]),
        delmo: unit(fields[15]),
        sin_m0: unit(fields[16]),
        n0: unit(fields[17]),
        mdot: unit(fields[18]),
        wdot: unit(fields[19]),
        odot: unit(fields[20]),
        c1: unit(fields[21]),
        c4: unit(fields[22]),
        omgcof: unit(fields[23]),
        t2cof: unit(fields[24]),
        d2: unit(fields[25]),
        nodecf: unit(fields[26]),
        t3cof: unit(fields[27]),
        d3: unit(fields[28]),
        t4cof: unit(fields[29]),
        d4: unit(fields[30]),
        t5cof: unit(fields[31]),
    }
}

/// The mean elements so many minutes from the epoch.
fn mean_at<E: Enc>(consts: &Consts<E>, minutes: i64) -> Option<Mean<E>> {
    secular(
        consts,
        E::constant(Iv::from_ratio(i128::from(minutes), 16384)),
    )
}

/// Whether the bounds hold the unit and are narrow.
fn holds(bounds: Iv, floor: i64) -> bool {
    let (lo, hi) = bounds.ends();
    lo <= floor && floor < hi && hi.saturating_sub(lo) <= WIDEST
}

#[test]
fn mean_elements_hold_the_values_from_outside(rt: HostRuntime) {
    for row in ROWS.iter() {
        let consts: Consts<Plain> = consts_of(&row.0);
        let lifted: Consts<Plain> = lift(&consts);
        let expected = &row.2;
        match mean_at(&lifted, row.1) {
            Some(mean) => {
                assert!(rt; holds(mean.am.bounds(), expected[0]));
                assert!(rt; holds(mean.em.bounds(), expected[1]));
                assert!(rt; holds(mean.ml.bounds(), expected[2]));
                assert!(rt; holds(mean.wm.bounds(), expected[3]));
                assert!(rt; holds(mean.om.bounds(), expected[4]));
            }
            None => assert!(rt; false),
        }
    }
}

/// Eccentricities a million units to each side of -0.001 and of 1, and whether they are inside the guard.
const NEXT_TO_THE_GUARD: [(i64, bool); 4] = [
    (-281_475_976_710, false),
    (-281_473_976_710, true),
    (281_474_975_710_656, true),
    (281_474_977_710_656, false),
];

#[test]
fn mean_elements_are_given_inside_the_guard_alone(rt: HostRuntime) {
    for row in ROWS.iter() {
        let mut consts: Consts<Plain> = consts_of(&row.0);
        for (e, inside) in NEXT_TO_THE_GUARD {
            consts.e = unit(e);
            assert!(rt; mean_at(&consts, 0).is_some() == inside);
        }
    }
}

/// Semimajor axes a million units to each side of an Earth radius, and whether they are inside the guard.
const NEXT_TO_AN_EARTH_RADIUS: [(i64, bool); 2] = [
    (281_474_975_710_656, false),
    (281_474_977_710_656, true),
];

#[test]
fn mean_elements_are_given_from_an_earth_radius_on_alone(rt: HostRuntime) {
    for row in ROWS.iter() {
        let mut consts: Consts<Plain> = consts_of(&row.0);
        for (a, inside) in NEXT_TO_AN_EARTH_RADIUS {
            consts.a = unit(a);
            assert!(rt; mean_at(&consts, 0).is_some() == inside);
        }
    }
}
