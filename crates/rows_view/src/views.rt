//! Places of stations, and the directions and lengths at which they see positions, against values from outside.
ghost use Rattle.std.specs.Prelude.{◌<◌};

use crate::expected::{FILE, STATIONS, VIEWS, long, place, seen, turn};
use earth_frame::Turn;
use enc_plain::Plain;
use fixed_iv::{Enc, Iv, Vec3};
use station_file::read_stations;
use station_view::{Lengths, Sight, Station, lengths, sight};
use std::test::Fail;

/// The greatest width of a direction that is expected, in units of 2^-48.
const SLIM: i64 = 16384;

/// An enclosure of the numbers from `floor` to `floor + 1`, in units of 2^-48.
fn unit<E: Enc>(floor: i64) -> E {
    E::constant(Iv::from_ratio(2 * i128::from(floor) + 1, 562_949_953_421_312))
}

/// Whether the bounds hold the unit and are so narrow.
fn holds(bounds: Iv, floor: i64, widest: i64) -> bool {
    let (lo, hi) = bounds.ends();
    lo <= floor && floor < hi && hi.saturating_sub(lo) <= widest
}

/// Whether the place holds that of a station of the table.
fn place_holds(v: &Vec3<Iv>, k: usize) -> bool
    requires { k < 10000 }
{
    holds(v.x, place(3 * k), 4096)
        && holds(v.y, place(3 * k + 1), 4096)
        && holds(v.z, place(3 * k + 2), 4096)
}

/// The turn of a view of the table, and its position.
fn view_of<E: Enc>(view: usize) -> (Turn<E>, Vec3<E>)
    requires { view < 10000 }
{
    let by = Turn {
        sin: unit(turn(5 * view)),
        cos: unit(turn(5 * view + 1)),
    };
    let at = Vec3 {
        x: unit(turn(5 * view + 2)),
        y: unit(turn(5 * view + 3)),
        z: unit(turn(5 * view + 4)),
    };
    (by, at)
}

/// The direction of a view of the table, through any enclosure.
fn seen_from<E: Enc>(station: &Station, view: usize) -> Option<Sight<E>>
    requires { view < 10000 }
{
    let (by, at) = view_of(view);
    sight(station, &by, &at)
}

/// Its lengths, through any enclosure.
fn lengths_from<E: Enc>(station: &Station, view: usize) -> Lengths<E>
    requires { view < 10000 }
{
    let (by, at) = view_of(view);
    lengths(station, &by, &at)
}

/// Whether the direction holds that of the table which begins there.
fn sight_holds(seen_at: Option<Sight<Plain>>, start: usize) -> bool
    requires { start < 10000 }
{
    match seen_at {
        Some(found) => {
            holds(found.east.bounds(), seen(start), SLIM)
                && holds(found.north.bounds(), seen(start + 1), SLIM)
                && holds(found.up.bounds(), seen(start + 2), SLIM)
        }
        None => false,
    }
}

/// Whether the lengths hold those of the table which begin there.
fn lengths_hold(found: Lengths<Plain>, start: usize) -> bool
    requires { start < 10000 }
{
    holds(found.east.bounds(), long(start), SLIM)
        && holds(found.north.bounds(), long(start + 1), SLIM)
        && holds(found.up.bounds(), long(start + 2), SLIM)
        && holds(found.range.bounds(), long(start + 3), SLIM)
}

#[test]
fn places_and_directions_hold_the_values_from_outside(rt: HostRuntime) -> Result<(), Fail> {
    let Ok(stations) = read_stations(rt.alloc(), FILE.as_bytes()) else {
        assert!(rt; false, "the file is read");
        return Ok(());
    };
    assert_eq!(rt; stations.len() as usize, STATIONS, "all stations");
    for k in 0..stations.len() {
        let station = Station::fix(rt.alloc(), stations.row(k))?;
        assert!(rt;
            place_holds(&station.place, k as usize),
            "the place of station {k}"
        );
        for view in 0..VIEWS {
            let start = 3 * (VIEWS * k as usize + view);
            assert!(rt;
                sight_holds(seen_from(&station, view), start),
                "station {k}, view {view}"
            );
            let start = 4 * (VIEWS * k as usize + view);
            assert!(rt;
                lengths_hold(lengths_from(&station, view), start),
                "lengths of station {k}, view {view}"
            );
        }
    }
    Ok(())
}

#[test]
fn a_station_sees_nothing_at_its_own_place(rt: HostRuntime) -> Result<(), Fail> {
    let Ok(stations) = read_stations(rt.alloc(), FILE.as_bytes()) else {
        assert!(rt; false, "the file is read");
        return Ok(());
    };
    let station = Station::fix(rt.alloc(), stations.row(0))?;
    let by: Turn<Plain> = Turn {
        sin: unit(0),
        cos: unit(281_474_976_710_655),
    };
    let here: Vec3<Plain> = Vec3 {
        x: Plain::constant(station.place.x),
        y: Plain::constant(station.place.y),
        z: Plain::constant(station.place.z),
    };
    assert!(rt; sight(&station, &by, &here).is_none());
    Ok(())
}
