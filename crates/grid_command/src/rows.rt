//! What is counted of the rows of a plan.
ghost use Rattle.std.specs.Prelude.{◌≡◌, ◌<◌, [], ◌∷◌, length, slice_get};
ghost use Rattle.grid_command.specs.Tally.{Fits, tally_of, tally_of_spans};
ghost use Rattle.plan_command.specs.Parts.{pair_rows};
ghost use Rattle.plan_core.specs.State.{plan_record, row_of};
ghost use Rattle.plan_text.specs.Summary.{pair_rows as all_pair_rows};
ghost use Rattle.span_bisect.specs.Answer.{IsHeld};
ghost use Rattle.span_pool.specs.Pool.{Holds, list_of};

use crate::tally::{Tally, both, tally_of_span};
use plan_core::{Plan, Track, TrackAnswer};

/// What is counted of all rows of satellites at stations.
pub(crate) fn tally_of_plan(plan: &Plan) -> Tally
    requires { Fits (tally_of (all_pair_rows (plan_record plan.now))) }
    ensures { result ≡ tally_of (all_pair_rows (plan_record plan.now)) }
{
    let mut tally = Tally::NONE;
    for sat in 0..plan.sats() {
        tally = both(tally, tally_of_satellite(plan, sat));
    }
    tally
}

/// What is counted of the rows of a satellite at the stations.
fn tally_of_satellite(plan: &Plan, sat: u32) -> Tally
    requires sat { sat < length plan.now.satellites }
    requires fits { Fits (tally_of (pair_rows plan.now (slice_get plan.now.satellites sat))) }
    ensures { result ≡ tally_of (pair_rows plan.now (slice_get plan.now.satellites sat)) }
{
    let mut tally = Tally::NONE;
    for station in 0..plan.stations() {
        if let Some(answer) = plan.pair_row(sat, station) {
            tally = both(tally, tally_of_answer(plan, answer));
        }
    }
    tally
}

/// What is counted of a row.
fn tally_of_answer(plan: &Plan, answer: &TrackAnswer) -> Tally
    requires held { IsHeld plan.now.pool answer.now }
    requires fits { Fits (tally_of (row_of plan.now.pool answer.now ∷ [])) }
    ensures { result ≡ tally_of (row_of plan.now.pool answer.now ∷ []) }
{
    match answer {
        TrackAnswer::Spans(track) => tally_of_track(plan, track),
        TrackAnswer::Unresolved { .. } => Tally {
            unresolved: 1,
            ..Tally::NONE
        },
        TrackAnswer::Full { .. } => Tally {
            full: 1,
            ..Tally::NONE
        },
        TrackAnswer::Decays { .. } => Tally {
            decays: 1,
            ..Tally::NONE
        },
    }
}

/// What is counted of the spans of a track.
fn tally_of_track(plan: &Plan, track: &Track) -> Tally
    requires held { Holds plan.now.pool track.now }
    requires fits { Fits (tally_of_spans (list_of plan.now.pool track.now)) }
    ensures { result ≡ tally_of_spans (list_of plan.now.pool track.now) }
{
    let mut tally = Tally::NONE;
    for k in 0..track.count() {
        if let Some(span) = plan.span(track, k) {
            tally = both(tally, tally_of_span(span));
        }
    }
    tally
}
