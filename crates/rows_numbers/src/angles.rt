//! Sines and cosines of intervals, against values of 60 digits.
use crate::draw::{Draw, interval, mixed_ends};
use crate::expected::{ANGLES, EIGHTH_PARTS, PAIRS};
use fixed_iv::Iv;
use trig_enc::{pi, sincos};

/// No sine or cosine lies past so many units.
const LIMIT: i64 = (1 << 48) + 1;

#[test]
fn pi_lies_in_one_unit(rt: HostRuntime) {
    assert_eq!(rt; pi().ends(), (884279719003555, 884279719003556));
}

#[test]
fn pairs_are_held_and_narrow(rt: HostRuntime) {
    for (lo, hi, least_sine, most_sine, least_cosine, most_cosine) in PAIRS {
        let angle = interval(lo, hi);
        let (sines, cosines) = sincos(angle);
        assert!(rt;
            sines.lo <= least_sine && most_sine <= sines.hi,
            "sine of {lo} to {hi}"
        );
        assert!(rt;
            cosines.lo <= least_cosine && most_cosine <= cosines.hi,
            "cosine of {lo} to {hi}"
        );
        for result in [sines, cosines] {
            assert!(rt;
                -LIMIT <= result.lo && result.hi <= LIMIT,
                "size at {lo} to {hi}"
            );
            match (angle.width(), result.width()) {
                (Some(before), Some(after)) => {
                    assert!(rt; after <= before.saturating_add(16), "width at {lo} to {hi}");
                }
                _ => assert!(rt; false, "unbounded at {lo} to {hi}"),
            }
        }
    }
}

#[test]
fn a_whole_circle_reaches_both_limits(rt: HostRuntime) {
    for angle in [
        interval(0, 1768559438007110),
        Iv::WHOLE,
        interval(0, i64::MAX),
    ] {
        let (sines, cosines) = sincos(angle);
        assert_eq!(rt; sines.ends(), (-LIMIT, LIMIT));
        assert_eq!(rt; cosines.ends(), (-LIMIT, LIMIT));
    }
}

/// Ends of the range, ties between quarter turns, and four widths.
fn drawn_angle(draw: &mut Draw) -> Iv {
    let kind = draw.bits() >> 61;
    let value = draw.number();
    let start = if kind < 2 {
        tie(value >> 50).wrapping_add(draw.bits().cast_signed() >> 61)
    } else {
        value
    };
    let width = match draw.bits() >> 62 {
        0 => 0,
        1 => 1,
        2 => 1000000,
        _ => 1 << 40,
    };
    let lo = start.max(i64::MIN + 1).min(i64::MAX - 1 - width);
    interval(lo, lo.wrapping_add(width))
}

/// The whole units below an odd number, 2 n + 1, of eighths of a turn.
fn tie(n: i64) -> i64 {
    let eighths = i128::from(n) * 2 + 1;
    i64::try_from(eighths.wrapping_mul(EIGHTH_PARTS) >> 64).unwrap_or(0)
}

#[test]
fn three_thousand_angles(rt: HostRuntime) {
    let mut draw = Draw::new(3);
    for expected in ANGLES {
        let mut digest = 0;
        for _ in 0..100 {
            let (sines, cosines) = sincos(drawn_angle(&mut draw));
            digest = mixed_ends(mixed_ends(digest, sines), cosines);
        }
        assert_eq!(rt; digest, expected);
    }
}
