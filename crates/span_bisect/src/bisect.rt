//! The bisection.

ghost use Rattle.std.specs.Prelude.{◌≡◌, ◌+◌, ◌<◌, ◌≤◌, IfErr, IfNone, IfSome, None, OnOk};
ghost use Rattle.arrayvec.specs.ArrayVec.{array_vec_len};
ghost use Rattle.span_bisect.specs.Answer.{HasItsCause, IsAnswer, IsPoolAfter, track_of};
ghost use Rattle.span_bisect.specs.Part.{IsPart, IsSink};
ghost use Rattle.span_bisect.specs.Reading.{IsGrown, IsRead, IsStop, said};
ghost use Rattle.span_bisect.specs.Stack.{IsStack};
ghost use Rattle.span_pool.specs.Pool.{Holds, IsStill};
ghost use Rattle.span_pool.specs.declared.track.Track.{Track};

use crate::answer::{Cover, TrackAnswer};
use crate::judge::{Judge, Verdict};
use crate::pieces::cut_cell;
use crate::stack::{Cell, put};
use arrayvec::ArrayVec;
use span_pool::{Full, Mark, Span, SpanPool, Track};

/// Why a track has no spans.
pub(crate) enum Stop {
    /// It grazes for too long.
    Unresolved { from: u64, to: u64 },
    /// The span that begins here found no free slot.
    Full { at: u64 },
    /// It sinks in the tick that begins here.
    Decays { at: u64 },
}

/// The spans of the judge's window, in slots of the pool, with undecided spans of at most `resolution` ticks. The left
/// part of a cell is read first. A span takes a slot when the next one begins or the window ends; so a longer undecided
/// stretch is `Unresolved`, and a tick that sinks is `Decays`, also where the span before it would find no slot. Only
/// `Spans` leaves slots in use.
pub fn cover<J: Judge>(judge: &J, resolution: u64, pool: &mut SpanPool) -> Cover
    requires ticks { (1 ≤ J.tick_count judge.now) × (J.tick_count judge.now ≤ 8640000000) }
    requires resolution { (1 ≤ resolution) × (resolution ≤ 600000) }
    ensures certified { IsAnswer (track_of J.Judge judge.now) resolution pool.old pool.new result.answer }
    ensures causes { HasItsCause (track_of J.Judge judge.now) resolution pool.old result.answer }
    ensures pool { IsPoolAfter pool.old pool.new result.answer }
    ensures others { (other : Track) → Holds pool.old other → IsStill pool.old pool.new other }
{
    let mut cells = 0;
    let mut track = pool.start();
    let answer = match read_track(judge, resolution, pool, &mut track, &mut cells) {
        Ok(()) => TrackAnswer::Spans(track),
        Err(stop) => {
            pool.release(track);
            answer_of(stop)
        }
    };
    Cover { answer, cells }
}

/// The answer where there are no spans.
fn answer_of(stop: Stop) -> TrackAnswer
    ensures { result ≡ said stop }
{
    match stop {
        Stop::Unresolved { from, to } => TrackAnswer::Unresolved { from, to },
        Stop::Full { at } => TrackAnswer::Full { at },
        Stop::Decays { at } => TrackAnswer::Decays { at },
    }
}

/// Reads the spans of the window into an empty track, or as far as they go.
fn read_track<J: Judge>(
    judge: &J,
    resolution: u64,
    pool: &mut SpanPool,
    track: &mut Track,
    cells: &mut u64,
) -> Result<(), Stop>
    requires ticks { (1 ≤ J.tick_count judge.now) × (J.tick_count judge.now ≤ 8640000000) }
    requires resolution { (1 ≤ resolution) × (resolution ≤ 600000) }
    requires empty { (track.old.head ≡ None) × (track.old.count ≡ 0) }
    ensures grown { IsGrown pool.old pool.new track.new }
    ensures read { OnOk result (IsRead (track_of J.Judge judge.now) resolution pool.new track.new) }
    ensures stopped { IfErr result (IsStop (track_of J.Judge judge.now) resolution pool.old) }
{
    let mut stack: ArrayVec<Cell, 64> = ArrayVec::new();
    stack.push(Cell {
        to: judge.ticks(),
        last: None,
    });
    let Some(mut run) = next_part(judge, 0, &mut stack, cells) else {
        return Err(Stop::Decays { at: 0 });
    };
    while !stack.is_empty() {
        let Some(part) = next_part(judge, run.to, &mut stack, cells) else {
            return Err(Stop::Decays { at: run.to });
        };
        if part.mark == run.mark {
            run.to = part.to;
            if run.mark == Mark::Undecided && run.to - run.from > resolution {
                return Err(Stop::Unresolved {
                    from: run.from,
                    to: run.to,
                });
            }
        } else {
            match pool.push(track, run) {
                Ok(()) => run = part,
                Err(Full) => return Err(Stop::Full { at: run.from }),
            }
        }
    }
    match pool.push(track, run) {
        Ok(()) => Ok(()),
        Err(Full) => Err(Stop::Full { at: run.from }),
    }
}

/// Reads the next cell of the stack until a part at its start is certain, or it is one tick long, and puts back what is
/// left. There is no part where it sinks.
// As a call it would cost more than the cheaper half of what it does.
#[inline(always)]
fn next_part<J: Judge>(
    judge: &J,
    at: u64,
    stack: &mut ArrayVec<Cell, 64>,
    cells: &mut u64,
) -> Option<Span>
    requires more { 0 < array_vec_len stack.old }
    requires stack { IsStack (track_of J.Judge judge.now) at stack.old.items }
    ensures part { IfSome result (IsPart (track_of J.Judge judge.now) at) }
    ensures stack { IfSome result (λ part. IsStack (track_of J.Judge judge.now) part.to stack.new.items) }
    ensures sinks { IfNone result (IsSink (track_of J.Judge judge.now) at) }
{
    let Some(cell) = stack.pop() else {
        unreachable!()
    };
    if let Some(part) = cell.last {
        if at == cell.to {
            return Some(part);
        }
        stack.push(cell);
    }
    let mut to = cell.to;
    while to - at > 1 {
        *cells = cells.saturating_add(1);
        let pieces = cut_cell(judge, at, to);
        if let Some(part) = pieces.first {
            if part.to == to {
                return Some(part);
            }
            put(stack, pieces.cut, pieces.rest);
            put(
                stack,
                part.to,
                Cell {
                    to: pieces.cut,
                    last: None,
                },
            );
            return Some(part);
        }
        put(stack, pieces.cut, pieces.rest);
        to = pieces.cut;
    }
    *cells = cells.saturating_add(1);
    read_tick(judge, at, to)
}

/// The part of a single tick. There is none where it sinks.
fn read_tick<J: Judge>(judge: &J, at: u64, to: u64) -> Option<Span>
    requires tick { to ≡ at + 1 }
    requires inside { to ≤ J.tick_count judge.now }
    ensures part { IfSome result (λ part. IsPart (track_of J.Judge judge.now) at part × (part.to ≡ to)) }
    ensures sinks { IfNone result (IsSink (track_of J.Judge judge.now) at) }
{
    let mark = match judge.judge(at, to) {
        Verdict::Yes => Mark::Yes,
        Verdict::No => Mark::No,
        Verdict::Unsure => Mark::Undecided,
        Verdict::Sinks => return None,
    };
    Some(Span { mark, from: at, to })
}
