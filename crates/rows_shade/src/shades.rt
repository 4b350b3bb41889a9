//! Depths and heights over the shadow against values from outside, and what bounds of them say.
ghost use Rattle.std.specs.Prelude.{◌<◌};

use crate::expected::{CASES, shaded};
use enc_plain::Plain;
use fixed_iv::{Enc, Iv, Side, Vec3};
use std::test::Fail;
use sun_shade::{Shade, judge_shade, shade};

/// The greatest width of a number that is expected, in units of 2^-48.
const SLIM: i64 = 64;

/// An enclosure of so many millionths.
fn millionths<E: Enc>(n: i64) -> E {
    E::constant(Iv::from_ratio(i128::from(n), 1_000_000))
}

/// An interval between two numbers of thousandths.
fn thousandths(from: i64, to: i64) -> Iv {
    Iv::from_ratio(i128::from(from), 1000).hull(Iv::from_ratio(i128::from(to), 1000))
}

/// Three numbers of the table.
fn vector<E: Enc>(start: usize) -> Vec3<E>
    requires { start < 10000 }
{
    Vec3 {
        x: millionths(shaded(start)),
        y: millionths(shaded(start + 1)),
        z: millionths(shaded(start + 2)),
    }
}

/// The bounds of a case's numbers.
fn bounds_of(k: usize) -> Shade<Iv>
    requires { k < 1000 }
{
    let found: Shade<Plain> = shade(&vector(9 * k), &vector(9 * k + 3));
    Shade {
        p: found.p.bounds(),
        g: found.g.bounds(),
    }
}

/// Whether the bounds hold the unit and are so narrow.
fn holds(bounds: Iv, floor: i64) -> bool {
    let (lo, hi) = bounds.ends();
    lo <= floor && floor <= hi && hi.saturating_sub(lo) <= SLIM
}

#[test]
fn depths_and_heights_hold_the_values_from_outside(rt: HostRuntime) -> Result<(), Fail> {
    for k in 0..CASES {
        let found = bounds_of(k);
        assert!(rt; holds(found.p, shaded(9 * k + 6)), "depth of case {k}");
        assert!(rt; holds(found.g, shaded(9 * k + 7)), "height of case {k}");
    }
    Ok(())
}

#[test]
fn light_and_shadow_are_told_as_by_angles(rt: HostRuntime) -> Result<(), Fail> {
    for k in 0..CASES {
        let wanted = if shaded(9 * k + 8) == 1 {
            Side::Yes
        } else {
            Side::No
        };
        assert_eq!(rt; judge_shade(&bounds_of(k)), wanted, "case {k}");
    }
    Ok(())
}

#[test]
fn bounds_decide_light_shadow_or_neither(rt: HostRuntime) -> Result<(), Fail> {
    let cases = [
        (-500, -500, -100, -100, Side::No),
        (200, 200, -500, -500, Side::Yes),
        (-1000, -1000, -1, 1, Side::Unsure),
        (-1000, -1000, 1, 2, Side::Yes),
        (-1, 1, -500, -400, Side::Unsure),
        (-1, 1, 40, 41, Side::Yes),
        (-1000, -1000, 0, 0, Side::Unsure),
        (0, 0, -500, -500, Side::Unsure),
        (-1000, -1, -1000, -1, Side::No),
    ];
    for (p_low, p_high, g_low, g_high, wanted) in cases {
        let bounds = Shade {
            p: thousandths(p_low, p_high),
            g: thousandths(g_low, g_high),
        };
        assert_eq!(rt;
            judge_shade(&bounds),
            wanted,
            "p from {p_low}, g from {g_low}"
        );
    }
    Ok(())
}
