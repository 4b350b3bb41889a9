//! Each method of the slope enclosure, called through the interface.
use crate::expected::{CASES, COUNTS, LINES, PLACES, TURNS, VALUES};
use fixed_iv::{Enc, Iv};
use lin_form::Lin;

/// Parts of 2^-56 in a unit of 2^-48.
const PARTS: i128 = 1 << 8;

/// What each method gives for a quantity that goes along a line, and another.
fn each<E: Enc>(from: Iv, to: Iv, other_from: Iv, other_to: Iv) -> [E; 13] {
    let line = E::line(from, to);
    let other = E::line(other_from, other_to);
    let (sine, cosine) = line.sincos();
    [
        E::constant(from),
        E::pi(),
        line,
        line.plus(other),
        line.minus(other),
        line.times(other),
        line.divided(other),
        line.negate(),
        line.max_const(to),
        sine,
        cosine,
        line.sqrt(),
        line.cbrt2(),
    ]
}

/// An interval of one number.
fn point(units: i64) -> Iv {
    if units == i64::MIN || units == i64::MAX {
        return Iv::WHOLE;
    }
    Iv::from_ends(units, units)
}

/// Whether a number, in parts of 2^-56 rounded down, can be covered so many sixths of half of the cell from the middle.
fn is_covered(form: &Lin, sixths: i64, parts: i64) -> bool {
    let sixths = i128::from(sixths);
    let parts = i128::from(parts);
    let first = sixths.wrapping_mul(i128::from(form.slope.lo));
    let second = sixths.wrapping_mul(i128::from(form.slope.hi));
    let low = i128::from(form.centre.lo)
        .wrapping_mul(6)
        .wrapping_add(first.min(second));
    let high = i128::from(form.centre.hi)
        .wrapping_mul(6)
        .wrapping_add(first.max(second));
    i128::from(form.range.lo).wrapping_mul(PARTS) <= parts.wrapping_add(1)
        && parts <= i128::from(form.range.hi).wrapping_mul(PARTS)
        && low.wrapping_mul(PARTS) <= parts.wrapping_add(1).wrapping_mul(6)
        && parts.wrapping_mul(6) <= high.wrapping_mul(PARTS)
}

#[test]
fn each_method_covers_its_values(rt: HostRuntime) {
    let mut values = VALUES.iter();
    for [from, to, other_from, other_to] in CASES {
        let forms = each::<Lin>(point(from), point(to), point(other_from), point(other_to));
        for place in PLACES {
            let Some(row) = values.next() else {
                assert!(rt; false, "values are left");
                return;
            };
            for (form, value) in forms.iter().zip(row.iter()) {
                assert!(rt;
                    is_covered(form, place, *value),
                    "{from} to {to} at {place}: {value}"
                );
            }
        }
    }
    assert!(rt; values.next().is_none());
}

/// How many units wide a form is about its line in the middle of the cell.
fn waist(form: &Lin) -> u64 {
    form.centre.width().unwrap_or(u64::MAX)
}

#[test]
fn a_short_cell_keeps_its_slope(rt: HostRuntime) {
    // half of the first cell is 0.0005 long and half of the other 0.001; their product is 5e-7, or 140,737,488 units
    let [from, to, other_from, other_to] = CASES[0];
    let forms = each::<Lin>(point(from), point(to), point(other_from), point(other_to));
    for form in forms.iter() {
        assert!(rt; waist(form) <= 140_737_500, "{}", waist(form));
    }
}

/// Units that the rounding of a sine may take to each side.
const ROUNDING: i64 = 64;

#[test]
fn a_sine_bends_to_one_side(rt: HostRuntime) {
    for [from, to, sine_low, sine_high, cosine_low, cosine_high] in TURNS {
        let (sine, cosine) = Lin::line(point(from), point(to)).sincos();
        for (form, low, high) in [
            (sine, sine_low, sine_high),
            (cosine, cosine_low, cosine_high),
        ] {
            assert!(rt;
                low.wrapping_sub(ROUNDING) <= form.centre.lo
                    && form.centre.hi <= high.wrapping_add(ROUNDING),
                "{from} to {to}: {} to {}",
                form.centre.lo,
                form.centre.hi
            );
        }
    }
}

#[test]
fn where_a_piece_has_no_bound_the_range_alone_is_left(rt: HostRuntime) {
    let [from, to, other_from, other_to] = CASES[0];
    let line = Lin::line(point(from), point(to));
    let across = Lin::line(point(other_from), point(-other_to));
    let below = Lin::line(point(-from), point(-to));
    let everything = Lin::constant(Iv::WHOLE);
    for form in [
        line.plus(everything),
        everything.times(line),
        line.divided(across),
        below.sqrt(),
        below.cbrt2(),
    ] {
        assert_eq!(rt; form.range.ends(), Iv::WHOLE.ends());
        assert_eq!(rt; form.centre.ends(), Iv::WHOLE.ends());
        assert_eq!(rt; form.slope.ends(), (0, 0));
    }
}

#[test]
fn parts_of_a_line_are_counted_from_both_ends(rt: HostRuntime) {
    for ([from, to], [parts, above, below, last_above, last_below]) in LINES
        .iter()
        .zip(COUNTS.iter())
    {
        let line = Lin::line(point(*from), point(*to));
        let first = line.sign_parts(*parts);
        let last = line.reversed().sign_parts(*parts);
        assert_eq!(rt; (first.yes, first.no), (*above, *below));
        assert_eq!(rt; (last.yes, last.no), (*last_above, *last_below));
        assert_eq!(rt; line.parts_above_0(*parts), *above);
    }
}
