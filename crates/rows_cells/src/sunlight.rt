//! Sunlight over least cells next to a passage of the shadow's edge, at instants from outside.
ghost use Rattle.std.specs.Prelude.{◌≡◌, ◌<◌, ◌≤◌, pos};

use elements::{Elements, Instant, Window};
use fixed_iv::Iv;
use orbit_sight::{Craft, LitJudge, is_far};
use span_bisect::{Judge, Verdict};
use sun_shade::Shade;
use tle_read::read_pair;

/// The lines of a published set, of an eccentricity of 0.186.
const LINE1: &[u8] = b"1 00005U 58002B   00179.78495062  .00000023  00000-0  28098-4 0  4753";

const LINE2: &[u8] = b"2 00005  34.2682 348.7242 1859667 331.7664  19.3264 10.82419157413667";

/// Ticks from 15,400,000 seconds after 2000-01-01T12:00:00 in which the satellite enters or leaves the shadow, and the verdicts
/// before and behind them; made by tools/orbit/sunlight.py.
const PASSAGES: [(u64, Verdict, Verdict); 5] = [
    (17_946_780, Verdict::Yes, Verdict::No),
    (36_771_377, Verdict::No, Verdict::Yes),
    (97_754_983, Verdict::Yes, Verdict::No),
    (116_584_269, Verdict::No, Verdict::Yes),
    (177_563_112, Verdict::Yes, Verdict::No),
];

/// How far from a passage the verdict is certain: 50 milliseconds.
const NEAR: u64 = 500;

/// The widest that the height is there, in units of 2^-48: 2^-17.
const WIDEST: i64 = 2_147_483_648;

/// Five hours.
fn window() -> Window
    ensures { result ≡ record { start = pos 15_400_000_000_000_000; ticks = 180_000_000; resolution = 10_000 } }
{
    Window::make(
        Instant::from_nanos(15_400_000_000_000_000),
        180_000_000,
        10_000,
    )
}

/// Whether an interval holds 0, and is as narrow as this.
fn is_around_0(v: Iv) -> bool {
    let (lo, hi) = v.ends();
    lo <= 0 && hi >= 0 && hi.saturating_sub(lo) <= WIDEST
}

/// Whether the bounds are those of a passage: the height is 0, and the satellite behind the Earth's centre.
fn is_passage(found: Option<Shade<Iv>>) -> bool {
    match found {
        Some(shade) => is_around_0(shade.g) && shade.p.hi < 0,
        None => false,
    }
}

/// Whether the satellite passes the shadow's edge in the least cell from a tick, with these verdicts before and behind it.
fn passes(set: &Elements, tick: u64, before: Verdict, behind: Verdict) -> bool
    requires least { NEAR ≤ tick }
    requires most { tick < 179_000_000 }
{
    let hours = window();
    if is_far(set, &hours) {
        return false;
    }
    let Ok(craft) = Craft::make(set) else {
        return false;
    };
    let judge = LitJudge::make(&craft, hours);
    judge.judge(tick - NEAR, tick - NEAR + 1) == before
        && judge.judge(tick + NEAR, tick + NEAR + 1) == behind
        && is_passage(judge.shade_on(tick))
}

#[test]
fn the_shadow_is_passed_at_the_instants_from_outside(rt: HostRuntime) {
    match read_pair(LINE1, LINE2) {
        Ok(set) => {
            for (tick, before, behind) in PASSAGES {
                assert!(rt; tick >= NEAR && tick < 179_000_000);
                assert!(rt; passes(&set, tick, before, behind), "{tick}");
            }
        }
        Err(_) => assert!(rt; false),
    }
}
