ghost use Rattle.std.specs.Prelude.{◌≡◌};

use crate::answers::{Refusal, covered, is_list, no, refused, undecided, yes};
use crate::listed::Listed;
use span_bisect::{SpanPool, Verdict};
use std::test::Fail;

#[test]
fn one_certain_cell_is_one_span(rt: HostRuntime) -> Result<(), Fail> {
    let judge = Listed::new(8_640_000_000, &[(8_640_000_000, Verdict::Yes)]);
    let mut pool = SpanPool::with_slots(rt.alloc(), 1_048_576)?;
    let (track, cells) = covered(&judge, 600_000, &mut pool, &rt);
    assert!(rt; is_list(&pool, &track, &[yes(0, 8_640_000_000)]));
    assert_eq!(rt; pool.used(), 1);
    assert_eq!(rt; cells, 1);
    assert_eq!(rt; judge.calls(), 1);
    Ok(())
}

#[test]
fn a_change_takes_fewer_than_100_verdicts(rt: HostRuntime) -> Result<(), Fail> {
    let judge = Listed::new(
        8_640_000_000,
        &[(4_320_000_001, Verdict::Yes), (8_640_000_000, Verdict::No)],
    );
    let mut pool = SpanPool::with_slots(rt.alloc(), 2)?;
    let (track, cells) = covered(&judge, 10_000, &mut pool, &rt);
    let want = [yes(0, 4_320_000_001), no(4_320_000_001, 8_640_000_000)];
    assert!(rt; is_list(&pool, &track, &want));
    assert!(rt; cells < 100);
    assert_eq!(rt; cells, judge.calls());
    Ok(())
}

#[test]
fn an_undecided_run_of_the_resolution_is_one_span(rt: HostRuntime) -> Result<(), Fail> {
    let judge = Listed::new(
        20_000,
        &[
            (100, Verdict::Yes),
            (10_100, Verdict::Unsure),
            (20_000, Verdict::Yes),
        ],
    );
    let mut pool = SpanPool::with_slots(rt.alloc(), 3)?;
    let (track, _) = covered(&judge, 10_000, &mut pool, &rt);
    let want = [yes(0, 100), undecided(100, 10_100), yes(10_100, 20_000)];
    assert!(rt; is_list(&pool, &track, &want));
    assert_eq!(rt; pool.used(), 3);
    Ok(())
}

/// Where an undecided run begins, and the slots: a longer run is unresolved, also where no slot is free.
#[test]
fn a_longer_run_is_unresolved(rt: HostRuntime) -> Result<(), Fail> {
    let rows: [(&'static [(u64, Verdict)], u32, u64, u64); 4] = [
        (
            &[
                (100, Verdict::Yes),
                (10_101, Verdict::Unsure),
                (20_000, Verdict::Yes),
            ],
            3,
            100,
            10_101,
        ),
        (
            &[
                (100, Verdict::Yes),
                (10_101, Verdict::Unsure),
                (20_000, Verdict::Yes),
            ],
            1,
            100,
            10_101,
        ),
        (
            &[(10_001, Verdict::Unsure), (20_000, Verdict::No)],
            1,
            0,
            10_001,
        ),
        (
            &[(9_999, Verdict::No), (20_000, Verdict::Unsure)],
            1,
            9_999,
            20_000,
        ),
    ];
    for (stretches, slots, from, to) in rows {
        let judge = Listed::new(20_000, stretches);
        let mut pool = SpanPool::with_slots(rt.alloc(), slots.clamp(1, 3))?;
        let answer = refused(&judge, 10_000, &mut pool, &rt);
        assert_eq!(rt; answer, Refusal::Unresolved { from, to });
        assert_eq!(rt; pool.used(), 0);
    }
    Ok(())
}

#[test]
fn neighbours_of_one_mark_are_one_span(rt: HostRuntime) -> Result<(), Fail> {
    let judge = Listed::new(
        1_000,
        &[
            (7, Verdict::No),
            (500, Verdict::No),
            (513, Verdict::Unsure),
            (1_000, Verdict::Unsure),
        ],
    );
    let mut pool = SpanPool::with_slots(rt.alloc(), 2)?;
    let (track, _) = covered(&judge, 500, &mut pool, &rt);
    assert!(rt; is_list(&pool, &track, &[no(0, 500), undecided(500, 1_000)]));
    Ok(())
}
