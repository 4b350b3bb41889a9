//! Small pools, and tracks that sink.

ghost use Rattle.std.specs.Prelude.{◌≡◌};

use crate::answers::{Refusal, covered, is_list, no, refused, yes};
use crate::listed::Listed;
use span_bisect::{SpanPool, Verdict};
use std::test::Fail;

/// Yes and No by turns, from 0 to 50 ticks.
pub fn changing() -> Listed
    ensures { result.ticks ≡ 50 }
{
    Listed::new(
        50,
        &[
            (10, Verdict::Yes),
            (20, Verdict::No),
            (30, Verdict::Yes),
            (40, Verdict::No),
            (50, Verdict::Yes),
        ],
    )
}

/// Yes to 10 ticks, and No to 20.
pub fn turning() -> Listed
    ensures { result.ticks ≡ 20 }
{
    Listed::new(20, &[(10, Verdict::Yes), (20, Verdict::No)])
}

/// Four changes: the slots, and where the span that found none begins.
#[test]
fn a_span_without_a_slot_is_named(rt: HostRuntime) -> Result<(), Fail> {
    for (slots, at) in [(1_u32, 10), (2, 20), (3, 30), (4, 40)] {
        let mut pool = SpanPool::with_slots(rt.alloc(), slots.clamp(1, 4))?;
        let answer = refused(&changing(), 10_000, &mut pool, &rt);
        assert_eq!(rt; answer, Refusal::Full { at }, "{slots} slots");
        assert_eq!(rt; pool.used(), 0);
    }
    let mut pool = SpanPool::with_slots(rt.alloc(), 5)?;
    let (track, _) = covered(&changing(), 10_000, &mut pool, &rt);
    let want = [yes(0, 10), no(10, 20), yes(20, 30), no(30, 40), yes(40, 50)];
    assert!(rt; is_list(&pool, &track, &want));
    assert_eq!(rt; pool.used(), 5);
    Ok(())
}

#[test]
fn a_full_pool_keeps_its_other_lists(rt: HostRuntime) -> Result<(), Fail> {
    let mut pool = SpanPool::with_slots(rt.alloc(), 3)?;
    let (track, _) = covered(&turning(), 10_000, &mut pool, &rt);
    assert_eq!(rt; pool.used(), 2);
    let answer = refused(&changing(), 10_000, &mut pool, &rt);
    assert_eq!(rt; answer, Refusal::Full { at: 10 });
    assert_eq!(rt; pool.used(), 2);
    assert!(rt; is_list(&pool, &track, &[yes(0, 10), no(10, 20)]));
    pool.release(track);
    assert_eq!(rt; pool.used(), 0);
    let answer = refused(&changing(), 10_000, &mut pool, &rt);
    assert_eq!(rt; answer, Refusal::Full { at: 30 });
    Ok(())
}

#[test]
fn one_slot_is_too_few_for_a_change(rt: HostRuntime) -> Result<(), Fail> {
    let mut pool = SpanPool::with_slots(rt.alloc(), 1)?;
    let answer = refused(&turning(), 10_000, &mut pool, &rt);
    assert_eq!(rt; answer, Refusal::Full { at: 10 });
    Ok(())
}

/// Where a track sinks, also at once, after an undecided run, and where no slot is free for the span before. A longer
/// undecided run, and a span for which no slot was free, come first.
#[test]
fn a_track_that_sinks_decays(rt: HostRuntime) -> Result<(), Fail> {
    let rows: [(&'static [(u64, Verdict)], Refusal); 7] = [
        (
            &[(40, Verdict::Sinks), (50, Verdict::Yes)],
            Refusal::Decays { at: 0 },
        ),
        (
            &[(10, Verdict::Yes), (50, Verdict::Sinks)],
            Refusal::Decays { at: 10 },
        ),
        (
            &[(49, Verdict::No), (50, Verdict::Sinks)],
            Refusal::Decays { at: 49 },
        ),
        (
            &[
                (10, Verdict::Yes),
                (15, Verdict::Unsure),
                (50, Verdict::Sinks),
            ],
            Refusal::Decays { at: 15 },
        ),
        (
            &[
                (10, Verdict::Yes),
                (16, Verdict::Unsure),
                (50, Verdict::Sinks),
            ],
            Refusal::Unresolved { from: 10, to: 16 },
        ),
        (
            &[(10, Verdict::Yes), (20, Verdict::No), (50, Verdict::Sinks)],
            Refusal::Decays { at: 20 },
        ),
        (
            &[
                (10, Verdict::Yes),
                (20, Verdict::No),
                (30, Verdict::Yes),
                (50, Verdict::Sinks),
            ],
            Refusal::Full { at: 10 },
        ),
    ];
    for (stretches, want) in rows {
        let judge = Listed::new(50, stretches);
        let mut pool = SpanPool::with_slots(rt.alloc(), 1)?;
        assert_eq!(rt; refused(&judge, 5, &mut pool, &rt), want);
        assert_eq!(rt; pool.used(), 0);
    }
    Ok(())
}

#[test]
fn a_track_that_sinks_keeps_the_other_lists(rt: HostRuntime) -> Result<(), Fail> {
    let judge = Listed::new(
        20,
        &[(7, Verdict::Yes), (8, Verdict::Sinks), (20, Verdict::Yes)],
    );
    let mut pool = SpanPool::with_slots(rt.alloc(), 3)?;
    let (track, _) = covered(&turning(), 10_000, &mut pool, &rt);
    let answer = refused(&judge, 10_000, &mut pool, &rt);
    assert_eq!(rt; answer, Refusal::Decays { at: 7 });
    assert_eq!(rt; pool.used(), 2);
    assert!(rt; is_list(&pool, &track, &[yes(0, 10), no(10, 20)]));
    Ok(())
}
