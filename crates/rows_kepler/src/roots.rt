//! Roots of 334 cases in 2,004 triples of intervals, against values from outside.
use crate::expected::{ROOTS, SIZES};
use crate::units::{between, plain_roots};
use fixed_iv::Iv;

/// Bits of u in units: up to 4, 1,024 and 16,384 radians.
const BITS: [u32; 3] = [50, 58, 62];

/// How far the ends of u, ax and ay lie outward of a case, below and above, in units.
const SHAPES: [[i64; 6]; 6] = [
    // points
    [0, 0, 0, 0, 0, 0],
    // as in a short cell
    [1 << 25, 1 << 25, 1 << 18, 1 << 18, 1 << 18, 1 << 18],
    // to one side
    [1 << 30, 0, 0, 1 << 20, 1 << 20, 0],
    // a wide angle
    [0, 1 << 46, 3, 5, 7, 11],
    // wide
    [1 << 47, 1 << 47, 1 << 43, 1 << 43, 1 << 43, 1 << 43],
    // a point as the angle
    [0, 0, 1 << 43, 0, 1, 1 << 40],
];

/// The greatest width that is expected at points where the sizes add up to 0.31 or less, in units.
const WIDEST: i64 = 16;

/// The next state of a generator of numbers.
fn next(state: u64) -> u64 {
    state
        .wrapping_mul(6364136223846793005)
        .wrapping_add(1442695040888963407)
}

/// The upper bits of a state.
fn upper(state: u64, bits: u32) -> i64 {
    (state >> 1 >> 63u32.saturating_sub(bits)).cast_signed()
}

/// The number, or its negative.
fn signed(number: i64, state: u64) -> i64 {
    if upper(state, 1) == 1 {
        0i64.saturating_sub(number)
    } else {
        number
    }
}

/// The case after a state, and the state after it: u, ax and ay in units. The sizes of ax and ay add up to `size`.
fn case(state: u64, bits: u32, size: i64) -> (u64, i64, i64, i64) {
    let far = next(state);
    let sign = next(far);
    let split = next(sign);
    let of_ax = next(split);
    let of_ay = next(of_ax);
    let ax = (size / 65536).saturating_mul(upper(split, 16));
    let ay = size.saturating_sub(ax);
    (
        of_ay,
        signed(upper(far, bits), sign),
        signed(ax, of_ax),
        signed(ay, of_ay),
    )
}

/// The interval about a number that goes so far to both sides.
fn about(number: i64, below: i64, above: i64) -> Iv {
    between(
        i128::from(number.saturating_sub(below)),
        i128::from(number.saturating_add(above)),
    )
}

/// The bounds of the roots of a case in a shape; where there are none, those of every number.
fn roots_in(shape: &[i64; 6], u: i64, ax: i64, ay: i64) -> (i64, i64) {
    let [u_low, u_high, ax_low, ax_high, ay_low, ay_high] = *shape;
    let roots = plain_roots(
        about(u, u_low, u_high),
        about(ax, ax_low, ax_high),
        about(ay, ay_low, ay_high),
    );
    roots.unwrap_or(Iv::WHOLE).ends()
}

#[test]
fn each_root_lies_inside(rt: HostRuntime) {
    let mut state = 1;
    for (i, &above) in ROOTS.iter().enumerate() {
        let (after, u, ax, ay) = case(state, BITS[i / 6 % 3], SIZES[i % 6]);
        state = after;
        let root = u.saturating_add(above);
        for shape in &SHAPES {
            let (lo, hi) = roots_in(shape, u, ax, ay);
            assert!(rt;
                i64::MIN < lo && lo <= root && root < hi && hi < i64::MAX,
                "case {i}: {u} {ax} {ay}"
            );
        }
        let (lo, hi) = roots_in(&SHAPES[0], u, ax, ay);
        assert!(rt;
            i % 6 > 3 || hi.saturating_sub(lo) <= WIDEST,
            "case {i}: {lo} {hi}"
        );
    }
}
