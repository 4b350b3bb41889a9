//! Elevation masks, on their borders and between them.
ghost use Rattle.std.specs.Prelude.{◌<◌};

use crate::expected::{JUDGED, MASKED, MASKS, far, judged};
use fixed_iv::{Iv, Side};
use station_file::read_stations;
use station_view::{Lengths, Sight, Station, judge_lengths, judge_mask};
use std::test::Fail;

/// The interval from a number of units of 2^-48 to the next. An exact 0 stands for itself.
fn unit(floor: i64) -> Iv {
    if floor == 0 {
        return Iv::from_ratio(0, 1);
    }
    Iv::from_ratio(2 * i128::from(floor) + 1, 562_949_953_421_312)
}

/// A direction of the table.
fn direction(k: usize) -> Sight<Iv>
    requires { k < 10000 }
{
    Sight {
        east: unit(judged(6 * k)),
        north: unit(judged(6 * k + 1)),
        up: unit(judged(6 * k + 2)),
    }
}

/// It as lengths at some range.
fn lengths(k: usize) -> Lengths<Iv>
    requires { k < 10000 }
{
    Lengths {
        east: unit(far(4 * k)),
        north: unit(far(4 * k + 1)),
        up: unit(far(4 * k + 2)),
        range: unit(far(4 * k + 3)),
    }
}

/// What the table says of a direction and a mask.
fn expected(k: usize, mask: usize) -> Side
    requires k { k < 10000 }
    requires mask { mask < 10000 }
{
    match judged(6 * k + 3 + mask) {
        1 => Side::Yes,
        -1 => Side::No,
        _ => Side::Unsure,
    }
}

#[test]
fn masks_are_judged_as_from_outside(rt: HostRuntime) -> Result<(), Fail> {
    let Ok(stations) = read_stations(rt.alloc(), MASKED.as_bytes()) else {
        assert!(rt; false, "the file is read");
        return Ok(());
    };
    assert_eq!(rt; stations.len() as usize, MASKS, "all masks");
    for mask in 0..stations.len() {
        let station = Station::fix(rt.alloc(), stations.row(mask))?;
        for k in 0..JUDGED {
            let found = judge_mask(&direction(k), &station.mask);
            assert!(rt;
                found == expected(k, mask as usize),
                "mask {mask}, direction {k}"
            );
            let found = judge_lengths(&lengths(k), &station.mask);
            assert!(rt;
                found == expected(k, mask as usize),
                "mask {mask}, lengths {k}"
            );
        }
    }
    Ok(())
}

#[test]
fn bounds_across_a_border_meet_both_floors(rt: HostRuntime) -> Result<(), Fail> {
    let Ok(stations) = read_stations(rt.alloc(), MASKED.as_bytes()) else {
        assert!(rt; false, "the file is read");
        return Ok(());
    };
    if stations.len() == 0 {
        return Ok(());
    }
    let station = Station::fix(rt.alloc(), stations.row(0))?;
    // from azimuth 355 to 5 at elevation 25: the floors are 40 and 10
    let across = Sight {
        east: Iv::from_ratio(-79, 1000).hull(Iv::from_ratio(79, 1000)),
        north: Iv::from_ratio(9, 10).hull(Iv::from_ratio(907, 1000)),
        up: Iv::from_ratio(4226, 10000),
    };
    assert!(rt;
        judge_mask(&across, &station.mask) == Side::Unsure,
        "neither"
    );
    let high = Sight {
        up: Iv::from_ratio(65, 100),
        ..across
    };
    assert!(rt; judge_mask(&high, &station.mask) == Side::Yes, "above both");
    let low = Sight {
        up: Iv::from_ratio(17, 100),
        ..across
    };
    assert!(rt; judge_mask(&low, &station.mask) == Side::No, "below both");
    let anywhere = Sight {
        east: Iv::WHOLE,
        north: Iv::WHOLE,
        up: Iv::from_ratio(65, 100),
    };
    assert!(rt;
        judge_mask(&anywhere, &station.mask) == Side::Yes,
        "unbounded, above all floors"
    );
    // the same bounds as lengths from range 2 to 2.1
    let range = Iv::from_ratio(2, 1).hull(Iv::from_ratio(21, 10));
    let lengths = Lengths {
        east: across.east * range,
        north: across.north * range,
        up: Iv::from_ratio(137, 100),
        range,
    };
    assert!(rt;
        judge_lengths(&lengths, &station.mask) == Side::Yes,
        "above 40 degrees at either range"
    );
    let between = Lengths {
        up: Iv::from_ratio(132, 100),
        ..lengths
    };
    assert!(rt;
        judge_lengths(&between, &station.mask) == Side::Unsure,
        "above 40 degrees at the shorter range alone"
    );
    Ok(())
}
