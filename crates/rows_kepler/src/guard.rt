//! When there is no answer, and answers at the ends of what can be enclosed.
use crate::units::{ONE, between, plain_roots};
use fixed_iv::Iv;

/// Past all bounds, in units.
const PAST: i128 = 1 << 70;

#[test]
fn sizes_that_add_up_to_one_have_no_answer(rt: HostRuntime) {
    let u = between(ONE, ONE);
    let cases: [(i128, i128, i128, i128, bool); 14] = [
        (0, 0, 0, 0, true),
        (0, ONE - 1, 0, 0, true),
        (0, ONE, 0, 0, false),
        (1 - ONE, 0, 0, 0, true),
        (-ONE, 0, 0, 0, false),
        (0, 0, 1 - ONE, ONE - 1, true),
        (0, 0, -ONE, 0, false),
        (0, 0, 0, ONE, false),
        (-ONE / 2, 0, 0, ONE / 2 - 1, true),
        (-ONE / 2, 0, 0, ONE / 2, false),
        (-1, ONE / 4, 1 - ONE * 3 / 4, 2, true),
        (-1, ONE / 4, -ONE * 3 / 4, 2, false),
        (-PAST, 0, 0, 0, false),
        (0, 0, 0, PAST, false),
    ];
    for (ax_low, ax_high, ay_low, ay_high, some) in cases {
        let roots = plain_roots(u, between(ax_low, ax_high), between(ay_low, ay_high));
        assert_eq!(rt;
            roots.is_some(),
            some,
            "{ax_low} {ax_high} {ay_low} {ay_high}"
        );
    }
}

#[test]
fn unbounded_angles_have_unbounded_roots(rt: HostRuntime) {
    let small = between(-5, ONE / 10);
    for u in [Iv::WHOLE, between(-PAST, 0), between(0, PAST)] {
        let roots = plain_roots(u, small, small).map(Iv::ends);
        assert_eq!(rt; roots, Some(Iv::WHOLE.ends()));
    }
}

/// At a circle the root is u, whatever u is.
#[test]
fn a_circle_keeps_the_angle(rt: HostRuntime) {
    let none = between(0, 0);
    for low in [i64::MIN + 64, -1 << 48, 0, 7, 3 << 48, i64::MAX - 64] {
        let high = low.saturating_add(9);
        let u = between(i128::from(low), i128::from(high));
        let (lo, hi) = plain_roots(u, none, none).unwrap_or(Iv::WHOLE).ends();
        assert!(rt; lo <= low && high <= hi, "from {low}");
        assert!(rt;
            low.saturating_sub(lo) <= 16 && hi.saturating_sub(high) <= 16,
            "from {low}"
        );
    }
}
