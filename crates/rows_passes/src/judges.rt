//! How many cells the judges of a pair are asked for on the day.
use crate::day::{a_day, plan_of_the_day};
use orbit_sight::{Craft, PairJudge, PlainPairJudge, is_far};
use plan_core::Plan;
use span_bisect::{Cover, SpanPool, TrackAnswer, cover};
use station_view::Station;
use std::alloc::Global;
use std::test::Fail;

/// The pool of a track.
fn pool_of(alloc: Global) -> Option<SpanPool> {
    SpanPool::with_slots(alloc, 1_048_576).ok()
}

/// How many cells were asked for, if the answer is spans.
fn cells_of(cover: Cover) -> Option<u64> {
    match cover.answer {
        TrackAnswer::Spans(_) => Some(cover.cells),
        _ => None,
    }
}

/// How many cells the judge with slopes is asked for.
fn with_slopes(craft: &Craft, station: &Station, pool: &mut SpanPool) -> Option<u64> {
    let day = a_day();
    if is_far(craft.set(), &day) {
        return None;
    }
    let judge = PairJudge::make(craft, station, day, 0);
    cells_of(cover(&judge, 10_000, pool))
}

/// How many the judge without them is asked for.
fn without_slopes(craft: &Craft, station: &Station, pool: &mut SpanPool) -> Option<u64> {
    let day = a_day();
    if is_far(craft.set(), &day) {
        return None;
    }
    let judge = PlainPairJudge::make(craft, station, day, 0);
    cells_of(cover(&judge, 10_000, pool))
}

/// How many cells each of them is asked for: the one with slopes, and the other.
fn both(alloc: Global, plan: &Plan) -> Option<(u64, u64)> {
    if plan.sats() == 0 || plan.stations() == 0 {
        return None;
    }
    let craft = plan.craft(0)?;
    let station = plan.station(0);
    let few = with_slopes(craft, station, &mut pool_of(alloc)?)?;
    let many = without_slopes(craft, station, &mut pool_of(alloc)?)?;
    Some((few, many))
}

#[test]
fn slopes_ask_for_fewer_cells(rt: HostRuntime) -> Result<(), Fail> {
    let plan = plan_of_the_day(rt.alloc())?;
    let counts = both(rt.alloc(), &plan);
    assert!(rt; counts.is_some_and(|(few, many)| few < many), "{counts:?}");
    Ok(())
}
