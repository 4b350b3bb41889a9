//! The passes of the day, against those from outside.
use crate::day::{
    contacts_of, has_fewer_spans, is_accepted, is_named, is_near, plan_of_the_day, sats_of,
    stations_of,
};
use std::test::Fail;

/// Where the passes begin and end, by `tools/plan/passes.py`.
const PASSES: [(u64, u64); 5] = [
    (227_596_139, 231_594_125),
    (284_379_663, 288_925_749),
    (341_797_763, 346_210_195),
    (399_101_564, 403_627_828),
    (456_413_365, 460_476_460),
];

#[test]
fn five_passes_a_day_are_those_from_outside(rt: HostRuntime) -> Result<(), Fail> {
    let plan = plan_of_the_day(rt.alloc())?;
    assert_eq!(rt; sats_of(&plan), 1);
    assert_eq!(rt; stations_of(&plan), 1);
    assert!(rt; is_accepted(&plan));
    assert!(rt; is_named(&plan, b"ISS (ZARYA)"));
    assert!(rt; plan.whole());
    assert!(rt; has_fewer_spans(&plan, 10_000));
    assert!(rt; contacts_of(rt.alloc(), &plan) == Some(5));
    let mut k = 0;
    for (from, to) in &PASSES {
        assert!(rt; is_near(rt.alloc(), &plan, k, 25544, *from, *to), "{k}");
        k = k.saturating_add(1);
    }
    Ok(())
}
