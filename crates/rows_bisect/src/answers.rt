//! What a cover of a judge comes to.

ghost use Rattle.std.specs.Prelude.{◌≡◌, ◌≢◌, ◌≤◌};
ghost use Rattle.span_bisect.specs.Answer.{IsOneMore};
ghost use Rattle.span_pool.specs.Pool.{Holds, IsStill};
ghost use Rattle.span_pool.specs.declared.track.Track.{Track};

use span_bisect::{Judge, Mark, Span, SpanPool, Track, TrackAnswer, cover};
use std::process::Abort;

/// Why there are no spans.
#[derive(Clone, Copy, Debug, PartialEq, Eq)]
pub enum Refusal {
    Unresolved { from: u64, to: u64 },
    Full { at: u64 },
    Decays { at: u64 },
}

pub fn yes(from: u64, to: u64) -> Span {
    Span {
        mark: Mark::Yes,
        from,
        to,
    }
}

pub fn no(from: u64, to: u64) -> Span {
    Span {
        mark: Mark::No,
        from,
        to,
    }
}

pub fn undecided(from: u64, to: u64) -> Span {
    Span {
        mark: Mark::Undecided,
        from,
        to,
    }
}

/// The track of a judge that has spans, and how many verdicts it took.
pub fn covered<J: Judge>(
    judge: &J,
    resolution: u64,
    pool: &mut SpanPool,
    rt: &impl Abort,
) -> (Track, u64)
    requires ticks { (1 ≤ J.tick_count judge.now) × (J.tick_count judge.now ≤ 8640000000) }
    requires resolution { (1 ≤ resolution) × (resolution ≤ 600000) }
    ensures more { IsOneMore pool.old pool.new result.0 }
    ensures others { (other : Track) → Holds pool.old other → IsStill pool.old pool.new other }
    ensures apart { (other : Track) → Holds pool.old other → other.head ≢ result.0.head }
{
    let cover = cover(judge, resolution, pool);
    match cover.answer {
        TrackAnswer::Spans(track) => (track, cover.cells),
        other => panic!(rt; "no spans: {other:?}"),
    }
}

/// Why a judge has no spans.
pub fn refused<J: Judge>(
    judge: &J,
    resolution: u64,
    pool: &mut SpanPool,
    rt: &impl Abort,
) -> Refusal
    requires ticks { (1 ≤ J.tick_count judge.now) × (J.tick_count judge.now ≤ 8640000000) }
    requires resolution { (1 ≤ resolution) × (resolution ≤ 600000) }
    ensures { pool.new ≡ pool.old }
{
    match cover(judge, resolution, pool).answer {
        TrackAnswer::Unresolved { from, to } => Refusal::Unresolved { from, to },
        TrackAnswer::Full { at } => Refusal::Full { at },
        TrackAnswer::Decays { at } => Refusal::Decays { at },
        TrackAnswer::Spans(track) => panic!(rt; "spans: {track:?}"),
    }
}

/// Whether a list is these spans.
pub fn is_list(pool: &SpanPool, track: &Track, want: &[Span]) -> bool
    requires { Holds pool.now track.now }
{
    if track.count() as usize != want.len() {
        return false;
    }
    for k in 0..track.count() {
        if pool.get(track, k) != want.get(k as usize).copied() {
            return false;
        }
    }
    pool.get(track, track.count()) == None
}
