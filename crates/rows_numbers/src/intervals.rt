//! Intervals with results that were worked out by hand.
use crate::draw::interval;
use fixed_iv::Iv;

/// Units in 1.
const ONE: i64 = 1 << 48;

#[test]
fn a_third_has_two_ends(rt: HostRuntime) {
    let third = Iv::from_ratio(1, 3);
    assert_eq!(rt; third.ends(), (93824992236885, 93824992236886));
    let product = third * Iv::from_ratio(3, 1);
    assert_eq!(rt; product.ends(), (281474976710655, 281474976710658));
}

#[test]
fn ratios_are_cut_at_the_limits(rt: HostRuntime) {
    for (num, den, lo, hi) in [
        (40000, 1, i64::MAX - 1, i64::MAX),
        (-40000, 1, i64::MIN, i64::MIN + 1),
        (i128::MIN, 1, i64::MIN, i64::MIN + 1),
        (i128::MAX, i128::MAX, ONE, ONE),
        (i128::MIN, i128::MAX, -ONE - 1, -ONE),
        (-1, i128::MAX, -1, 0),
        (1, i128::MAX, 0, 1),
        (0, 1, 0, 0),
        (32768, 1, i64::MAX - 1, i64::MAX),
        (-32768, 1, i64::MIN, i64::MIN + 1),
        (9223372036854775807, 281474976710656, i64::MAX - 1, i64::MAX),
        (
            9223372036854775806,
            281474976710656,
            i64::MAX - 1,
            i64::MAX - 1,
        ),
    ] {
        assert_eq!(rt; Iv::from_ratio(num, den).ends(), (lo, hi), "{num} / {den}");
    }
}

#[test]
fn products_and_quotients_of_small_numbers(rt: HostRuntime) {
    let product = interval(-ONE, 2 * ONE) * interval(-3 * ONE, ONE);
    assert_eq!(rt; product.ends(), (-6 * ONE, 3 * ONE));
    let quotient = interval(ONE, ONE) / interval(-ONE, ONE);
    assert_eq!(rt; quotient.ends(), (i64::MIN, i64::MAX));
    assert_eq!(rt; quotient.width(), None);
    let half = interval(ONE, 2 * ONE) / interval(-4 * ONE, -2 * ONE);
    assert_eq!(rt; half.ends(), (-ONE, -ONE / 4));
    assert_eq!(rt; half.width(), Some(211106232532992));
}

#[test]
fn unbounded_ends_stay_where_they_come_from(rt: HostRuntime) {
    let up = interval(ONE, i64::MAX);
    let down = interval(i64::MIN, ONE);
    assert_eq!(rt; (up + up).ends(), (2 * ONE, i64::MAX));
    assert_eq!(rt; (up - down).ends(), (0, i64::MAX));
    assert_eq!(rt; (up + down).ends(), (i64::MIN, i64::MAX));
    assert_eq!(rt; (-up).ends(), (i64::MIN, -ONE));
    assert_eq!(rt; (up * down).ends(), (i64::MIN, i64::MAX));
    assert_eq!(rt; up.meet(down).ends(), (ONE, ONE));
    assert_eq!(rt; up.hull(down).ends(), (i64::MIN, i64::MAX));
    assert_eq!(rt; down.max_const(interval(0, 2 * ONE)).ends(), (0, 2 * ONE));
    assert!(rt; !up.is_bounded() && interval(0, 0).is_bounded());
}

#[test]
fn sums_are_cut_at_the_limits(rt: HostRuntime) {
    let last = interval(i64::MAX - 1, i64::MAX - 1);
    let first = interval(i64::MIN + 1, i64::MIN + 1);
    assert_eq!(rt; (last + last).ends(), (i64::MAX - 1, i64::MAX));
    assert_eq!(rt; (first + first).ends(), (i64::MIN, i64::MIN + 1));
    assert_eq!(rt; (last + first).ends(), (-1, -1));
    assert_eq!(rt; (last - first).ends(), (i64::MAX - 1, i64::MAX));
}
