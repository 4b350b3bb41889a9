//! Positions over least cells: found, narrow, and beside the bounds at the cell's first instant.
ghost use Rattle.std.specs.Prelude.{◌≡◌, ◌<◌, pos};

use elements::{Elements, Instant, Window};
use enc_plain::Plain;
use fixed_iv::{Enc, Iv, Vec3};
use orbit_sight::{Craft, is_far, over};
use tle_read::read_pair;

/// The widest that a coordinate may be over a least cell, in units of 2^-48.
const WIDEST: i64 = 656_000_000;

/// The lines of a published set, of an eccentricity of 0.186.
const LINE1: &[u8] = b"1 00005U 58002B   00179.78495062  .00000023  00000-0  28098-4 0  4753";

const LINE2: &[u8] = b"2 00005  34.2682 348.7242 1859667 331.7664  19.3264 10.82419157413667";

/// An hour, which begins before the epoch of the set.
fn window() -> Window
    ensures { result ≡ record { start = pos 15_400_000_000_000_000; ticks = 36_000_000; resolution = 10_000 } }
{
    Window::make(
        Instant::from_nanos(15_400_000_000_000_000),
        36_000_000,
        10_000,
    )
}

/// Whether an interval is as narrow as this, and has a number in common with another.
fn is_beside(over: Iv, at: Iv) -> bool {
    let (lo, hi) = over.ends();
    let (from, to) = at.ends();
    hi.saturating_sub(lo) <= WIDEST && lo <= to && from <= hi
}

/// Whether each coordinate is.
fn are_beside(over: &Vec3<Plain>, at: &Vec3<Iv>) -> bool {
    is_beside(over.x.bounds(), at.x)
        && is_beside(over.y.bounds(), at.y)
        && is_beside(over.z.bounds(), at.z)
}

/// Whether the position over the least cell from a tick is narrow, and beside the bounds at the tick.
fn holds(set: &Elements, tick: u64) -> bool
    requires { tick < 36_000_000 }
{
    let hour = window();
    if is_far(set, &hour) {
        return false;
    }
    let Ok(craft) = Craft::make(set) else {
        return false;
    };
    match (
        over::<Plain>(&craft, &hour, tick, tick + 1),
        craft.bounds_at(hour.instant_at(tick)),
    ) {
        (Some(cell), Some(at)) => are_beside(&cell, &at),
        _ => false,
    }
}

#[test]
fn least_cells_have_narrow_positions(rt: HostRuntime) {
    match read_pair(LINE1, LINE2) {
        Ok(set) => {
            assert!(rt; holds(&set, 0));
            assert!(rt; holds(&set, 1));
            assert!(rt; holds(&set, 17_999_999));
            assert!(rt; holds(&set, 35_999_999));
        }
        Err(_) => assert!(rt; false),
    }
}
