//! Judges that tell how far they are certain from both ends of a cell: the same answers, and how few verdicts they take.

ghost use Rattle.span_pool.specs.Pool.{Holds};

use crate::answers::{Refusal, covered, refused};
use crate::listed::Listed;
use crate::surveyed::{Ends, Surveyed};
use span_bisect::{Mark, Span, SpanPool, Track, Verdict};
use std::test::Fail;

/// A day with 21 changes; five of its stretches are a single undecided tick.
const DAY: [(u64, Verdict); 22] = [
    (3_600_000, Verdict::Yes),
    (3_600_001, Verdict::Unsure),
    (57_000_123, Verdict::No),
    (62_345_679, Verdict::Yes),
    (120_000_000, Verdict::No),
    (120_000_001, Verdict::Yes),
    (120_000_002, Verdict::No),
    (184_040_404, Verdict::Yes),
    (184_040_405, Verdict::Unsure),
    (240_000_013, Verdict::No),
    (246_000_017, Verdict::Yes),
    (300_500_021, Verdict::No),
    (300_500_022, Verdict::Unsure),
    (300_500_023, Verdict::No),
    (480_000_001, Verdict::Yes),
    (480_000_002, Verdict::Unsure),
    (600_000_000, Verdict::No),
    (600_100_000, Verdict::Yes),
    (700_000_007, Verdict::No),
    (863_999_998, Verdict::Yes),
    (863_999_999, Verdict::Unsure),
    (864_000_000, Verdict::No),
];

/// What surveys tell: how near they come to a change, and of which ends.
const SURVEYS: [(u32, Ends); 5] = [
    (40, Ends::Both),
    (17, Ends::Both),
    (40, Ends::Left),
    (40, Ends::Right),
    (3, Ends::Both),
];

/// Whether the spans of a list are these stretches.
fn is_listed(pool: &SpanPool, track: &Track, stretches: &[(u64, Verdict)]) -> bool
    requires { Holds pool.now track.now }
{
    let mut from = 0;
    for k in 0..track.count() {
        let Some((to, verdict)) = stretches.get(k as usize) else {
            return false;
        };
        let mark = match verdict {
            Verdict::Yes => Mark::Yes,
            Verdict::No => Mark::No,
            Verdict::Unsure | Verdict::Sinks => Mark::Undecided,
        };
        let to = *to;
        if pool.get(track, k) != Some(Span { mark, from, to }) {
            return false;
        }
        from = to;
    }
    track.count() as usize == stretches.len()
}

/// The spans are the same whatever a survey tells, also of changes at neighbouring ticks and in cells of two ticks.
#[test]
fn surveys_find_the_same_spans(rt: HostRuntime) -> Result<(), Fail> {
    let rows: [(u64, &'static [(u64, Verdict)]); 7] = [
        (1, &[(1, Verdict::No)]),
        (2, &[(1, Verdict::Yes), (2, Verdict::No)]),
        (2, &[(1, Verdict::Unsure), (2, Verdict::Yes)]),
        (2, &[(1, Verdict::No), (2, Verdict::Unsure)]),
        (3, &[(1, Verdict::Yes), (2, Verdict::No), (3, Verdict::Yes)]),
        (
            9,
            &[
                (3, Verdict::Yes),
                (4, Verdict::No),
                (6, Verdict::Unsure),
                (8, Verdict::No),
                (9, Verdict::Yes),
            ],
        ),
        (
            100,
            &[
                (33, Verdict::No),
                (34, Verdict::Unsure),
                (90, Verdict::Yes),
                (91, Verdict::No),
                (100, Verdict::Yes),
            ],
        ),
    ];
    for (ticks, stretches) in rows {
        let judge = Listed::new(ticks.clamp(1, 100), stretches);
        let mut pool = SpanPool::with_slots(rt.alloc(), 5)?;
        let (track, cells) = covered(&judge, 2, &mut pool, &rt);
        assert!(rt; is_listed(&pool, &track, stretches));
        assert_eq!(rt; cells, judge.calls());
        for (shift, ends) in SURVEYS {
            let judge = Surveyed::new(ticks.clamp(1, 100), stretches, shift, ends);
            let mut pool = SpanPool::with_slots(rt.alloc(), 5)?;
            let (track, cells) = covered(&judge, 2, &mut pool, &rt);
            assert!(rt;
                is_listed(&pool, &track, stretches),
                "{ticks}, shift {shift}, {ends:?}"
            );
            assert_eq!(rt; cells, judge.calls());
        }
    }
    Ok(())
}

/// A day of 21 changes: the spans are those of a judge that does not survey, for at most eight verdicts a change.
#[test]
fn a_change_takes_at_most_eight_verdicts(rt: HostRuntime) -> Result<(), Fail> {
    let judge = Listed::new(864_000_000, &DAY);
    let mut pool = SpanPool::with_slots(rt.alloc(), 22)?;
    let (track, cells) = covered(&judge, 1, &mut pool, &rt);
    assert!(rt; is_listed(&pool, &track, &DAY));
    assert!(rt; cells > 500, "{cells} verdicts");
    for shift in [40, 17] {
        let judge = Surveyed::new(864_000_000, &DAY, shift, Ends::Both);
        let mut pool = SpanPool::with_slots(rt.alloc(), 22)?;
        let (track, cells) = covered(&judge, 1, &mut pool, &rt);
        assert!(rt; is_listed(&pool, &track, &DAY));
        assert_eq!(rt; cells, judge.calls());
        assert!(rt; cells <= 168, "{cells} verdicts, shift {shift}");
    }
    Ok(())
}

/// Why there are no spans, met inside cells that are surveyed: a run that is too long, a span without a slot, a tick that
/// sinks.
#[test]
fn surveys_find_the_same_refusals(rt: HostRuntime) -> Result<(), Fail> {
    let rows: [(&'static [(u64, Verdict)], Refusal); 5] = [
        (
            &[(40, Verdict::Yes), (46, Verdict::Unsure), (90, Verdict::No)],
            Refusal::Unresolved { from: 40, to: 46 },
        ),
        (
            &[(85, Verdict::Unsure), (90, Verdict::No)],
            Refusal::Unresolved { from: 0, to: 6 },
        ),
        (
            &[(40, Verdict::Yes), (45, Verdict::No), (90, Verdict::Yes)],
            Refusal::Full { at: 40 },
        ),
        (
            &[
                (40, Verdict::Yes),
                (45, Verdict::Unsure),
                (90, Verdict::Sinks),
            ],
            Refusal::Decays { at: 45 },
        ),
        (
            &[(40, Verdict::Sinks), (90, Verdict::No)],
            Refusal::Decays { at: 0 },
        ),
    ];
    for (stretches, want) in rows {
        for (shift, ends) in SURVEYS {
            let judge = Surveyed::new(90, stretches, shift, ends);
            let mut pool = SpanPool::with_slots(rt.alloc(), 1)?;
            assert_eq!(rt;
                refused(&judge, 5, &mut pool, &rt),
                want,
                "shift {shift}, {ends:?}"
            );
            assert_eq!(rt; pool.used(), 0);
        }
    }
    Ok(())
}
