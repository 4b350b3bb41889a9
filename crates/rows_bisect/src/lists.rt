//! Several lists in one pool.

use crate::answers::{Refusal, covered, is_list, no, refused, yes};
use crate::small::{changing, turning};
use span_bisect::SpanPool;
use std::test::Fail;

/// Slots that a list gave back are used again, and no other list changes.
#[test]
fn lists_stay_apart(rt: HostRuntime) -> Result<(), Fail> {
    let mut pool = SpanPool::with_slots(rt.alloc(), 9)?;
    let short = [yes(0, 10), no(10, 20)];
    let long = [yes(0, 10), no(10, 20), yes(20, 30), no(30, 40), yes(40, 50)];
    let (first, _) = covered(&turning(), 10_000, &mut pool, &rt);
    let (second, _) = covered(&turning(), 10_000, &mut pool, &rt);
    assert_eq!(rt; pool.used(), 4);
    pool.release(first);
    assert_eq!(rt; pool.used(), 2);
    let (third, _) = covered(&changing(), 10_000, &mut pool, &rt);
    assert_eq!(rt; pool.used(), 7);
    assert!(rt; is_list(&pool, &second, &short));
    assert!(rt; is_list(&pool, &third, &long));
    let answer = refused(&changing(), 10_000, &mut pool, &rt);
    assert_eq!(rt; answer, Refusal::Full { at: 20 });
    pool.release(second);
    assert_eq!(rt; pool.used(), 5);
    assert!(rt; is_list(&pool, &third, &long));
    let (fourth, _) = covered(&turning(), 10_000, &mut pool, &rt);
    assert!(rt; is_list(&pool, &third, &long));
    assert!(rt; is_list(&pool, &fourth, &short));
    pool.release(third);
    assert!(rt; is_list(&pool, &fourth, &short));
    pool.release(fourth);
    assert_eq!(rt; pool.used(), 0);
    Ok(())
}
