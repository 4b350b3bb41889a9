use crate::units::between;
use fixed_iv::Iv;
use root_enc::{cbrt2, sqrt};

/// Intervals of a class.
const OF_A_CLASS: u32 = 250;

/// Twelve classes of intervals: the least lower end in units, bits that lower ends go further, bits of widths, and two
/// digests of the roots of 250 intervals, of square roots and of cube roots of squares. They come from a program that takes
/// whole roots of large numbers.
const CLASSES: [(i64, u32, u32, i64, i64); 12] = [
    // 0 and the units next to it
    (-4, 3, 3, 1783363068439281815, 7524858165341216742),
    // near 0, to both sides
    (-4096, 13, 12, 6335501462972172593, -1197478294939345725),
    // small
    (1, 36, 30, -2524461253969048777, 3722388947280000626),
    // points about 1/4096
    (68718428160, 21, 0, 5426680304661802198, -526103917306717841),
    // from about 1/4096 on
    (
        67645734912,
        31,
        40,
        -1038162236049016682,
        -4971243639617620618,
    ),
    // points about 1/64
    (
        4398045462528,
        21,
        0,
        -8638939617898645500,
        -9081761843929511785,
    ),
    // from about 1/64 on
    (
        4396972769280,
        31,
        45,
        -517757699933278868,
        2272154085564639789,
    ),
    // points about 1
    (
        280375465082880,
        41,
        0,
        -6496284045521336,
        8015842022670641870,
    ),
    // points of any size
    (
        1099511627776,
        61,
        0,
        1513862647988914992,
        1558101229564634478,
    ),
    // wide
    (
        1099511627776,
        60,
        62,
        -8203146806155263700,
        310867742301157605,
    ),
    // up to the largest, some past it
    (
        9223367638808264704,
        42,
        40,
        5286193915800732091,
        -3453307561750254752,
    ),
    // from below 0 to both sides of it
    (
        -1125899906842624,
        50,
        51,
        -2803866213183763396,
        -2209539259834759499,
    ),
];

/// The next state of a generator of numbers.
fn next(state: u64) -> u64 {
    state
        .wrapping_mul(6364136223846793005)
        .wrapping_add(1442695040888963407)
}

/// The upper bits of a state, up to 63 of them.
fn upper(state: u64, bits: u32) -> u64 {
    state >> 1 >> 63u32.saturating_sub(bits)
}

/// The interval whose lower end is so many units and further ones.
fn interval(first: i64, further: u64, width: u64) -> Iv {
    let low = i128::from(first) + i128::from(further);
    between(low, low + i128::from(width))
}

/// A digest of what was digested and an interval.
fn digest(before: i64, v: Iv) -> i64 {
    before
        .wrapping_mul(6364136223846793005)
        .wrapping_add(v.lo)
        .wrapping_mul(6364136223846793005)
        .wrapping_add(v.hi)
}

#[test]
fn roots_of_three_thousand_intervals(rt: HostRuntime) {
    let mut state = 1;
    for (class, &(first, reach, width, squares, cubes)) in CLASSES.iter().enumerate() {
        let mut square_digest = 0;
        let mut cube_digest = 0;
        for _ in 0..OF_A_CLASS {
            let further = next(state);
            state = next(further);
            let x = interval(first, upper(further, reach), upper(state, width));
            square_digest = digest(square_digest, sqrt(x));
            cube_digest = digest(cube_digest, cbrt2(x));
        }
        assert_eq!(rt; square_digest, squares, "square roots of class {class}");
        assert_eq!(rt; cube_digest, cubes, "cube roots of class {class}");
    }
}
