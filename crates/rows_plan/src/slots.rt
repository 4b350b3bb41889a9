//! Rows that are given back to a planner with one slot.
ghost use Rattle.std.specs.Prelude.{◌≤◌, length};
ghost use Rattle.span_pool.specs.Pool.{Holds};

use crate::calls::planner_of;
use crate::given::{EQUATOR, POLE, an_hour};
use crate::read::{is_small, is_span};
use plan_core::{Planner, Track, TrackAnswer};
use span_bisect::Mark;
use std::test::Fail;

/// Whether the row of the first satellite's light is small, and how many slots are in use with it and after it is given back.
fn light_slots(planner: &mut Planner) -> (bool, u32, u32)
    requires { 1 ≤ length planner.old.entries }
{
    if planner.fate(0).is_some() {
        return (false, u32::MAX, u32::MAX);
    }
    let light = planner.lit(0);
    let small = is_small(&light);
    let used = planner.used();
    if let TrackAnswer::Spans(track) = light {
        planner.give_back(track);
    }
    (small, used, planner.used())
}

#[test]
fn light_gives_its_slots_back(rt: HostRuntime) -> Result<(), Fail> {
    let mut planner = planner_of(rt.alloc(), EQUATOR, POLE, an_hour(), 1)?;
    let (small, used, left) = light_slots(&mut planner);
    assert!(rt; small);
    assert!(rt; used <= 1);
    assert_eq!(rt; left, 0);
    Ok(())
}

/// Whether a track is one hidden span of an hour.
fn is_hidden_hour(planner: &Planner, track: &Track) -> bool
    requires { Holds planner.now.pool track.now }
{
    track.count() == 1
        && is_span(planner.span(track, 0), Mark::No, 0, 36_000_000)
        && planner.span(track, 1).is_none()
}

/// Whether the row of the first satellite at the first station is hidden, and how many slots are in use with it and after it is
/// given back.
fn pair_slots(planner: &mut Planner) -> (bool, u32, u32)
    requires entries { 1 ≤ length planner.old.entries }
    requires stations { 1 ≤ length planner.old.setting.stations.rows }
{
    if planner.fate(0).is_some() {
        return (false, u32::MAX, u32::MAX);
    }
    let TrackAnswer::Spans(track) = planner.track(0, 0) else {
        return (false, u32::MAX, u32::MAX);
    };
    let hidden = is_hidden_hour(planner, &track);
    let used = planner.used();
    planner.give_back(track);
    (hidden, used, planner.used())
}

#[test]
fn a_pair_gives_its_slots_back(rt: HostRuntime) -> Result<(), Fail> {
    let mut planner = planner_of(rt.alloc(), EQUATOR, POLE, an_hour(), 1)?;
    let (hidden, used, left) = pair_slots(&mut planner);
    assert!(rt; hidden);
    assert_eq!(rt; used, 1);
    assert_eq!(rt; left, 0);
    Ok(())
}
