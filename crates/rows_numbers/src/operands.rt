//! Operators on 2,000 pairs of operands and 1,000 ratios. A block of 100 is compared as one number.
use crate::draw::{Draw, mixed, mixed_ends};
use crate::expected::{OPERANDS, RATIOS};
use fixed_iv::Iv;

/// The results of every operator, taken in.
fn mixed_results(digest: u64, a: Iv, b: Iv) -> u64 {
    let mut digest = digest;
    for result in [
        a + b,
        a - b,
        -a,
        a * b,
        a / b,
        a.hull(b),
        a.meet(b),
        a.max_const(b),
    ] {
        digest = mixed_ends(digest, result);
    }
    mixed(digest, a.width().unwrap_or(u64::MAX))
}

#[test]
fn operators_give_the_tightest_intervals(rt: HostRuntime) {
    let mut draw = Draw::new(1);
    for expected in OPERANDS {
        let mut digest = 0;
        for _ in 0..100 {
            let a = draw.interval();
            let b = draw.interval();
            digest = mixed_results(digest, a, b);
        }
        assert_eq!(rt; digest, expected);
    }
}

/// A number of up to 128 bits, of any size.
fn wide(draw: &mut Draw) -> i128 {
    let high = i128::from(draw.number());
    let value = (high << 64) + i128::from(draw.bits());
    value >> (draw.bits() >> 57)
}

#[test]
fn ratios_give_the_tightest_intervals(rt: HostRuntime) {
    let mut draw = Draw::new(2);
    for expected in RATIOS {
        let mut digest = 0;
        for _ in 0..100 {
            let num = wide(&mut draw);
            let den = wide(&mut draw);
            if den > 0 {
                digest = mixed_ends(digest, Iv::from_ratio(num, den));
            }
        }
        assert_eq!(rt; digest, expected);
    }
}
