//! Pairs of a satellite and a station over cells, against values from outside.
ghost use Rattle.std.specs.Prelude.{◌≡◌, pos};

use elements::{Instant, Window};
use fixed_iv::Iv;
use orbit_sight::{Craft, PairJudge, PlainPairJudge, is_far};
use span_bisect::{Judge, Verdict};
use station_file::read_stations;
use station_view::{Sight, Station};
use std::alloc::Global;
use std::test::Fail;
use tle_read::read_pair;

/// The lines of a published set, of an eccentricity of 0.186.
const LINE1: &[u8] = b"1 00005U 58002B   00179.78495062  .00000023  00000-0  28098-4 0  4753";

const LINE2: &[u8] = b"2 00005  34.2682 348.7242 1859667 331.7664  19.3264 10.82419157413667";

/// A station that sees it rise and set, with a mask of 10 degrees.
const STATION: &str =
    "version = 1\n[[station]]\nname = \"a\"\nlat = \"20\"\nlon = \"-60\"\nheight = \"600\"\nmask = \"10\"\n";

/// UT1 less UTC, in milliseconds.
const DUT1_MS: i32 = -123;

/// Ticks of the window, with east, north and up in units of 2^-48, rounded down, and whether that is above the mask: made by
/// tools/pairs/expected.py.
const SEEN: [(u64, i64, i64, i64, bool); 5] = [
    (0, 264483184438493, -77164933162177, 57640096752304, true),
    (
        9_000_000,
        247571794132676,
        -104359360121141,
        -83937436339802,
        false,
    ),
    (
        18_000_000,
        180626833465492,
        -90529516559562,
        -195975805083143,
        false,
    ),
    (
        27_000_000,
        76417327396210,
        -42319252202773,
        -267577344857301,
        false,
    ),
    (
        35_999_999,
        -48338258163455,
        28753878084588,
        -275798458674236,
        false,
    ),
];

/// The widest that a component of a direction may be here over a least cell, in units of 2^-48: 0.001.
const WIDEST: i64 = 281_474_976_710;

/// An hour, which begins before the epoch of the set.
fn window() -> Window
    ensures { result ≡ record { start = pos 15_400_000_000_000_000; ticks = 36_000_000; resolution = 10_000 } }
{
    Window::make(
        Instant::from_nanos(15_400_000_000_000_000),
        36_000_000,
        10_000,
    )
}

/// Whether an interval holds the unit that begins here, and is narrow.
fn holds(v: Iv, floor: i64) -> bool {
    let (lo, hi) = v.ends();
    lo <= floor && floor < hi && hi.saturating_sub(lo) <= WIDEST
}

/// Whether the direction over a least cell does.
fn sight_holds(sight: Option<Sight<Iv>>, east: i64, north: i64, up: i64) -> bool {
    match sight {
        Some(at) => holds(at.east, east) && holds(at.north, north) && holds(at.up, up),
        None => false,
    }
}

/// Whether both judges say the same, and this, of each listed least cell, and the bounds hold each listed direction.
fn all_seen(craft: &Craft, station: &Station) -> bool {
    let hour = window();
    if is_far(craft.set(), &hour) {
        return false;
    }
    let pair = PairJudge::make(craft, station, hour, DUT1_MS);
    let plain = PlainPairJudge::make(craft, station, hour, DUT1_MS);
    for (tick, east, north, up, above) in SEEN {
        if tick >= 36_000_000 {
            return false;
        }
        let expected = if above { Verdict::Yes } else { Verdict::No };
        if pair.judge(tick, tick + 1) != expected || plain.judge(tick, tick + 1) != expected {
            return false;
        }
        if !sight_holds(pair.sight_on(tick), east, north, up) {
            return false;
        }
    }
    pair.judge(0, 36_000_000) == Verdict::Unsure && pair.ticks() == 36_000_000
}

/// The station, with its enclosures.
fn station_of(alloc: Global) -> Option<Station> {
    let stations = read_stations(alloc, STATION.as_bytes()).ok()?;
    if stations.len() == 0 {
        return None;
    }
    Station::fix(alloc, stations.row(0)).ok()
}

#[test]
fn a_station_sees_a_satellite_as_from_outside(rt: HostRuntime) -> Result<(), Fail> {
    let set = read_pair(LINE1, LINE2).ok().ok_or("the set is read")?;
    let craft = Craft::make(&set).ok().ok_or("the set is accepted")?;
    let station = station_of(rt.alloc()).ok_or("the station is read")?;
    assert!(rt; all_seen(&craft, &station));
    Ok(())
}
