//! Recovered motions and refusals, against values from outside.
use crate::expected::{FATES, RECOVERED};
use crate::sets::set_of;
use enc_plain::Plain;
use fixed_iv::{Enc, Iv};
use sgp4_motion::{Recovered, recover_motion};

/// The period over 16,384 minutes.
fn period<E: Enc>(motion: &Recovered<E>) -> E {
    let two = E::constant(Iv::from_ratio(2, 1));
    two.times(E::pi()).divided(motion.n0)
}

/// The perigee in kilometres.
fn perigee<E: Enc>(motion: &Recovered<E>) -> E {
    let one = E::constant(Iv::from_ratio(1, 1));
    let radius = E::constant(Iv::from_ratio(6_378_135, 1_000));
    motion.rp.minus(one).times(radius)
}

/// Whether the enclosure holds a number next to both of these units, and is at most so many units wide.
fn holds<E: Enc>(enclosure: E, units: [i64; 2], widest: i64) -> bool {
    let (lo, hi) = enclosure.bounds().ends();
    lo <= units[0] && units[1] <= hi && hi.saturating_sub(lo) <= widest
}

/// Whether each quantity is enclosed, and narrow.
fn all_hold<E: Enc>(motion: &Recovered<E>, expected: &[[i64; 2]; 14]) -> bool {
    holds(motion.i, expected[0], 8)
        && holds(motion.c, expected[1], 24)
        && holds(motion.si, expected[2], 24)
        && holds(motion.e, expected[3], 1)
        && holds(motion.n0, expected[4], 11_264)
        && holds(motion.a, expected[5], 96)
        && holds(motion.bb, expected[6], 3)
        && holds(motion.b0, expected[7], 8)
        && holds(motion.p, expected[8], 104)
        && holds(motion.rp, expected[9], 104)
        && holds(motion.con41, expected[10], 160)
        && holds(motion.con42, expected[11], 256)
        && holds(period(motion), expected[12], 4)
        && holds(perigee(motion), expected[13], 1 << 20)
}

#[test]
fn recovered_motions_hold_the_values_from_outside(rt: HostRuntime) {
    for row in RECOVERED.iter() {
        match set_of(&row.0) {
            Some(set) => match recover_motion::<Plain>(&set) {
                Ok(motion) => {
                    assert!(rt; all_hold(&motion, &row.1), "the values are enclosed");
                    assert!(rt; !motion.simple, "the perigee is at least 220 km");
                }
                Err(_) => assert!(rt; false, "the set is accepted"),
            },
            None => assert!(rt; false, "the numbers are in their ranges"),
        }
    }
}

#[test]
fn sets_are_refused_for_their_first_fault(rt: HostRuntime) {
    for row in FATES.iter() {
        match set_of(&row.0) {
            Some(set) => {
                let fault = recover_motion::<Plain>(&set).err();
                assert!(rt; fault == row.1, "the fault is the expected one");
            }
            None => assert!(rt; false, "the numbers are in their ranges"),
        }
    }
}
