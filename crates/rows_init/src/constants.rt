//! The constants of twenty element sets, against values from outside.
use crate::expected::EXPECTED;
use crate::sets::set_at;
use enc_plain::Plain;
use fixed_iv::{Enc, Iv};
use sgp4_init::prepare;
use sgp4_shape::Consts;

/// The greatest width that is expected of each constant, in units of 2^-48.
const WIDEST: [i64; 32] = [
    16, 32, 32, 1, 16, 16, 16, 1, 256, 8192, 512, 4096, 1_048_576, 2048, 8, 131_072, 32, 32_768,
    32_768, 262_144, 65_536, 4096, 4_194_304, 1_048_576, 4096, 2048, 16_384, 2048, 2048, 2048,
    1024, 512,
];

/// The bounds of the constants, in the order of the expected values.
fn bounds_of<E: Enc>(k: &Consts<E>) -> [Iv; 32] {
    [
        k.i.bounds(),
        k.c.bounds(),
        k.si.bounds(),
        k.e.bounds(),
        k.w0.bounds(),
        k.o0.bounds(),
        k.m0.bounds(),
        k.bstar.bounds(),
        k.a.bounds(),
        k.eta.bounds(),
        k.con41.bounds(),
        k.c5.bounds(),
        k.xmcof.bounds(),
        k.xlcof.bounds(),
        k.aycof.bounds(),
        k.delmo.bounds(),
        k.sin_m0.bounds(),
        k.n0.bounds(),
        k.mdot.bounds(),
        k.wdot.bounds(),
        k.odot.bounds(),
        k.c1.bounds(),
        k.c4.bounds(),
        k.omgcof.bounds(),
        k.t2cof.bounds(),
        k.d2.bounds(),
        k.nodecf.bounds(),
        k.t3cof.bounds(),
        k.d3.bounds(),
        k.t4cof.bounds(),
        k.d4.bounds(),
        k.t5cof.bounds(),
    ]
}

/// Whether the interval holds a number next to both of these units, and is at most so many units wide.
fn holds(bounds: Iv, units: [i64; 2], widest: i64) -> bool {
    let (lo, hi) = bounds.ends();
    lo <= units[0] && units[1] <= hi && hi.saturating_sub(lo) <= widest
}

/// Whether each constant is enclosed, and narrow.
fn all_hold(bounds: &[Iv; 32], expected: &[[i64; 2]; 32]) -> bool {
    for k in 0..32 {
        if !holds(bounds[k], expected[k], WIDEST[k]) {
            return false;
        }
    }
    true
}

#[test]
fn constants_hold_the_values_from_outside(rt: HostRuntime) {
    for (place, expected) in EXPECTED.iter().enumerate() {
        match set_at(place) {
            Some(set) => match prepare::<Plain>(&set) {
                Ok(consts) => {
                    assert!(rt;
                        all_hold(&bounds_of(&consts), expected),
                        "the values are enclosed"
                    );
                }
                Err(_) => assert!(rt; false, "the set is accepted"),
            },
            None => assert!(rt; false, "the numbers are in their ranges"),
        }
    }
}
