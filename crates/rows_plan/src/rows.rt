//! Rows that are known by geometry.
use crate::calls::{plan_of, planner_of};
use crate::given::{BORDERS, EQUATOR, POLES, an_hour, two_hours};
use crate::read::{
    contacts_of, is_accepted, is_one_contact, is_one_span, is_small, is_station, light_of, pair_of,
    sats_of, stations_of, unresolved_for,
};
use plan_core::{Plan, TrackAnswer};
use span_bisect::Mark;
use std::alloc::Global;
use std::mem::size_of;
use std::test::Fail;

/// From the pole a satellite over the equator is below the horizon; through the Earth it is seen.
#[test]
fn a_pole_sees_the_equator_through_the_earth_alone(rt: HostRuntime) -> Result<(), Fail> {
    let plan = plan_of(rt.alloc(), EQUATOR, POLES, an_hour())?;
    assert_eq!(rt; sats_of(&plan), 1);
    assert_eq!(rt; stations_of(&plan), 2);
    assert_eq!(rt; plan.dut1_ms(), 0);
    assert!(rt; is_station(&plan, 0, b"Pole"));
    assert!(rt; is_station(&plan, 1, b"Open"));
    assert!(rt; is_accepted(&plan, 0));
    assert!(rt; light_of(&plan, 0).is_some());
    assert!(rt;
        is_one_span(&plan, 0, 0, Mark::No, 36_000_000),
        "the horizon"
    );
    assert!(rt;
        is_one_span(&plan, 0, 1, Mark::Yes, 36_000_000),
        "the open mask"
    );
    assert!(rt; plan.cells() > 0);
    assert!(rt; contacts_of(rt.alloc(), &plan, 0) == Some(0));
    assert!(rt; is_one_contact(rt.alloc(), &plan, 1, 0, 36_000_000, 90001));
    Ok(())
}

/// A satellite that passes along the borders of a mask grazes it for longer than the resolution.
#[test]
fn a_pass_along_the_borders_is_unresolved(rt: HostRuntime) -> Result<(), Fail> {
    let plan = plan_of(rt.alloc(), EQUATOR, BORDERS, two_hours())?;
    assert_eq!(rt; sats_of(&plan), 1);
    assert_eq!(rt; stations_of(&plan), 1);
    assert!(rt; unresolved_for(&plan, 0, 0) == Some(10_001));
    assert!(rt; !plan.whole());
    assert!(rt; contacts_of(rt.alloc(), &plan, 0) == Some(0));
    Ok(())
}

/// The plan of the first satellite and both stations over an hour, with one slot.
fn small_plan(alloc: Global) -> Result<Plan, Fail> {
    Ok(planner_of(alloc, EQUATOR, POLES, an_hour(), 1)?.plan())
}

#[test]
fn one_slot_holds_one_span(rt: HostRuntime) -> Result<(), Fail> {
    let plan = small_plan(rt.alloc())?;
    assert_eq!(rt; sats_of(&plan), 1);
    assert_eq!(rt; stations_of(&plan), 2);
    assert!(rt; light_of(&plan, 0).is_some_and(is_small));
    assert!(rt; pair_of(&plan, 0, 0).is_some_and(is_small));
    assert!(rt; pair_of(&plan, 0, 1).is_some_and(is_small));
    assert!(rt; !plan.whole());
    Ok(())
}

#[test]
fn a_row_takes_at_most_48_bytes(rt: HostRuntime) {
    assert!(rt; size_of::<TrackAnswer>() <= 48);
}
