//! Positions of published element sets, against the published positions (AIAA 2006-6753, verification cases).
use elements::Elements;
use enc_plain::Plain;
use fixed_iv::{Enc, Iv, Vec3};
use sgp4_drag::secular;
use sgp4_init::prepare;
use sgp4_periodic::place;
use tle_read::read_pair;

/// Units of 2^-48 in 1.
const ONE: i128 = 1 << 48;

/// The equatorial radius, in units of 10 micrometres.
const RADIUS: i128 = 637_813_500_000;

/// How far outside the bounds a published coordinate may lie, in units of 10 micrometres. The published program forms
/// ke from the gravitational parameter, and does not take the printed one.
const NEAR: i64 = 300;

/// How far apart the bounds may be, in units of 10 micrometres.
const WIDEST: i128 = 1000;

/// Minutes from the epoch, and the three coordinates in units of 10 micrometres.
type Row = [i64; 4];

/// The two lines of a set, and its positions at some times.
type Published = (&'static [u8], &'static [u8], [Row; 4]);

const SETS: [Published; 3] = [
    (
        b"1 00005U 58002B   00179.78495062  .00000023  00000-0  28098-4 0  4753",
        b"2 00005  34.2682 348.7242 1859667 331.7664  19.3264 10.82419157413667",
        [
            [0, 702_246_529_266, -140_008_296_755, 3_995_155],
            [1440, -93_855_923_943, -626_818_748_831, -429_402_924_751],
            [2880, -865_073_082_219, -191_493_811_525, -300_703_603_443],
            [4320, -906_047_373_569, 465_870_952_502, 81_368_673_153],
        ],
    ),
    (
        b"1 06251U 62025E   06176.82412014  .00008885  00000-0  12808-3 0  3985",
        b"2 06251  58.0579  54.0425 0030035 139.1568 221.1854 15.56387291  6774",
        [
            [0, 398_831_022_699, 549_896_657_235, 90_055_879],
            [720, 369_260_030_028, -97_624_265_255, -562_336_447_493],
            [1440, -277_714_682_335, -566_316_031_708, -246_254_889_123],
            [2880, 115_927_802_897, 505_660_175_495, 435_349_418_579],
        ],
    ),
    (
        b"1 28057U 03049A   06177.78615833  .00000060  00000-0  35940-4 0  1836",
        b"2 28057  98.4283 247.6961 0000884  88.1964 271.9322 14.35478080140550",
        [
            [0, -271_528_237_486, -661_926_436_889, -1_341_443],
            [240, 148_317_364_291, 539_521_248_786, 444_865_907_172],
            [600, -250_652_558_454, -662_898_655_094, -98_807_784_497],
            [1200, -224_959_837_532, -650_584_890_714, -195_672_365_062],
        ],
    ),
];

/// The position so many minutes from the epoch.
fn position_at(set: &Elements, minutes: i64) -> Option<Vec3<Plain>> {
    let consts = prepare::<Plain>(set).ok()?;
    let t = Plain::constant(Iv::from_ratio(i128::from(minutes), 16384));
    place(&consts, &secular(&consts, t)?)
}

/// Whether the published coordinate lies within the bounds or next to them, and these are narrow.
fn is_near(bounds: Iv, published: i64) -> bool {
    let (lo, hi) = bounds.ends();
    let below = i128::from(published.saturating_sub(NEAR)) * ONE;
    let above = i128::from(published.saturating_add(NEAR)) * ONE;
    let width = i128::from(hi.saturating_sub(lo)) * RADIUS;
    i128::from(lo) * RADIUS <= above && below <= i128::from(hi) * RADIUS && width <= WIDEST * ONE
}

/// Whether the set is near its published position.
fn is_published(set: &Elements, row: &Row) -> bool {
    let [minutes, x, y, z] = *row;
    match position_at(set, minutes) {
        Some(at) => {
            is_near(at.x.bounds(), x) && is_near(at.y.bounds(), y) && is_near(at.z.bounds(), z)
        }
        None => false,
    }
}

#[test]
fn published_positions_are_found(rt: HostRuntime) {
    for (line1, line2, rows) in &SETS {
        match read_pair(line1, line2) {
            Ok(set) => {
                for row in rows {
                    assert!(rt; is_published(&set, row), "minute {}", row[0]);
                }
            }
            Err(_) => assert!(rt; false, "the lines are read"),
        }
    }
}
