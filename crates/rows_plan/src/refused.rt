//! Satellites that are refused.
use crate::calls::plan_of;
use crate::given::{BOTH, DEEP, ECCENTRIC, EQUATOR, POLE, an_hour, an_hour_later};
use crate::read::{
    contacts_of, fate_of, has_no_rows, is_accepted, is_listed, pair_of, sats_of, stations_of,
};
use elements::Window;
use sgp4_shape::SatFault;
use std::process::Abort;
use std::test::Fail;

/// A set is refused in a window for this fault: it is listed, and has no rows.
fn refuses(
    lines: &[u8],
    window: Window,
    fault: SatFault,
    rt: &(impl Abort + AllocGlobal),
) -> Result<(), Fail> {
    let plan = plan_of(rt.alloc(), lines, POLE, window)?;
    assert_eq!(rt; sats_of(&plan), 1);
    assert_eq!(rt; stations_of(&plan), 1);
    assert!(rt; is_listed(&plan, 0, 90001, b"-"));
    assert!(rt; fate_of(&plan, 0) == Some(fault), "{fault:?}");
    assert!(rt; has_no_rows(&plan, 0, 0));
    assert!(rt; !plan.whole());
    assert!(rt; contacts_of(rt.alloc(), &plan, 0) == Some(0));
    Ok(())
}

#[test]
fn refused_satellites_have_no_rows(rt: HostRuntime) -> Result<(), Fail> {
    refuses(DEEP, an_hour(), SatFault::Deep, &rt)?;
    refuses(ECCENTRIC, an_hour(), SatFault::Eccentric, &rt)?;
    refuses(EQUATOR, an_hour_later(), SatFault::Far, &rt)?;
    Ok(())
}

#[test]
fn others_are_planned_beside_a_refused_one(rt: HostRuntime) -> Result<(), Fail> {
    let plan = plan_of(rt.alloc(), BOTH, POLE, an_hour())?;
    assert_eq!(rt; sats_of(&plan), 2);
    assert_eq!(rt; stations_of(&plan), 1);
    assert!(rt; fate_of(&plan, 0) == Some(SatFault::Deep));
    assert!(rt; is_listed(&plan, 1, 90002, b"-"));
    assert!(rt; is_accepted(&plan, 1));
    assert!(rt; pair_of(&plan, 1, 0).is_some());
    assert!(rt; !plan.whole());
    Ok(())
}
