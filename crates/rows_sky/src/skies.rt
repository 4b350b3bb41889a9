//! The sky at instants from 1957 to 2056 against values from outside.
ghost use Rattle.std.specs.Prelude.{◌<◌};

use crate::expected::{CASES, FILE, STATIONS, base, given, height, offset, place, sky};
use earth_frame::{Turn, sidereal, sun_direction, to_earth};
use enc_plain::Plain;
use fixed_iv::{Enc, Iv, Vec3};
use station_file::read_stations;
use station_view::{Spot, Station, inner_product, local_up};
use std::test::Fail;
use sun_shade::shade;

/// Whether the bounds hold the unit and are so narrow.
fn holds(bounds: Iv, floor: i64, widest: i64) -> bool {
    let (lo, hi) = bounds.ends();
    lo <= floor && floor < hi && hi.saturating_sub(lo) <= widest
}

/// A given number of 64ths, which an interval of no width holds.
fn sixty_fourths<E: Enc>(k: usize) -> E {
    E::constant(Iv::from_ratio(i128::from(given(k)), 64))
}

/// The Earth's turn of a case.
fn turn_of<E: Enc>(k: usize) -> Turn<E>
    requires { k < 1000 }
{
    sidereal(base(k), offset(k), sixty_fourths(4 * k))
}

/// The Sun of a case.
fn sun_of<E: Enc>(k: usize) -> Vec3<E>
    requires { k < 1000 }
{
    sun_direction(base(k), sixty_fourths(4 * k))
}

/// The position of a case.
fn position_of<E: Enc>(k: usize) -> Vec3<E>
    requires { k < 1000 }
{
    Vec3 {
        x: sixty_fourths(4 * k + 1),
        y: sixty_fourths(4 * k + 2),
        z: sixty_fourths(4 * k + 3),
    }
}

/// The sine of the Sun's elevation, of a case at a spot.
fn height_at<E: Enc>(spot: &Spot, k: usize) -> E
    requires { k < 1000 }
{
    inner_product(&local_up(spot), &to_earth(&turn_of(k), &sun_of(k)))
}

#[test]
fn the_turn_holds_the_values_from_outside(rt: HostRuntime) -> Result<(), Fail> {
    for k in 0..CASES {
        let turn: Turn<Plain> = turn_of(k);
        assert!(rt;
            holds(turn.sin.bounds(), sky(7 * k), 64),
            "sine of case {k}"
        );
        assert!(rt;
            holds(turn.cos.bounds(), sky(7 * k + 1), 64),
            "cosine of case {k}"
        );
    }
    Ok(())
}

#[test]
fn the_sun_holds_the_values_from_outside(rt: HostRuntime) -> Result<(), Fail> {
    for k in 0..CASES {
        let sun: Vec3<Plain> = sun_of(k);
        assert!(rt; holds(sun.x.bounds(), sky(7 * k + 2), 256), "x of case {k}");
        assert!(rt; holds(sun.y.bounds(), sky(7 * k + 3), 256), "y of case {k}");
        assert!(rt; holds(sun.z.bounds(), sky(7 * k + 4), 256), "z of case {k}");
    }
    Ok(())
}

#[test]
fn shadows_hold_the_values_from_outside(rt: HostRuntime) -> Result<(), Fail> {
    for k in 0..CASES {
        let position: Vec3<Plain> = position_of(k);
        let found = shade(&position, &sun_of(k));
        assert!(rt;
            holds(found.p.bounds(), sky(7 * k + 5), 256),
            "depth of case {k}"
        );
        assert!(rt;
            holds(found.g.bounds(), sky(7 * k + 6), 512),
            "height of case {k}"
        );
    }
    Ok(())
}

#[test]
fn stations_hold_the_values_from_outside(rt: HostRuntime) -> Result<(), Fail> {
    let Ok(stations) = read_stations(rt.alloc(), FILE.as_bytes()) else {
        assert!(rt; false, "the file is read");
        return Ok(());
    };
    assert_eq!(rt; stations.len() as usize, STATIONS, "all stations");
    for j in 0..stations.len() {
        let station = Station::fix(rt.alloc(), stations.row(j))?;
        let at = 3 * j as usize;
        assert!(rt; holds(station.place.x, place(at), 64), "x of station {j}");
        assert!(rt;
            holds(station.place.y, place(at + 1), 64),
            "y of station {j}"
        );
        assert!(rt;
            holds(station.place.z, place(at + 2), 32),
            "z of station {j}"
        );
        for k in 0..CASES {
            let found: Plain = height_at(&station.spot, k);
            let wanted = height(STATIONS * k + j as usize);
            assert!(rt;
                holds(found.bounds(), wanted, 512),
                "Sun of case {k} at station {j}"
            );
        }
    }
    Ok(())
}
