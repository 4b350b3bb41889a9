//! Station files that are read.
use elements::Decimal;
use station_file::{StFault, StKey, Stations, read_stations};
use std::test::Fail;

/// One station at the north pole, with a flat mask.
const POLE: &str =
    "version = 1\n[[station]]\nname = \"Pole\"\nlat = \"90\"\nlon = \"0\"\nheight = \"0\"\nmask = \"0\"\n";

/// Two stations; the second has sectors of its own, with gaps of 90 degrees and less, also round the circle.
const TWO: &str =
    "version = 1\n[[station]]\nname = \"Sea\"\nlat = \"-12.5\"\nlon = \"359.999\"\nheight = \"-4.25\"\nmask = \"5\"\n[[station]]\nname = \"Hill\"\nlat = \"+9e0\"\nlon = \"-180\"\nheight = \"9000\"\nborders = [\"10\", \"99.5\", \"180\", \"270\", \"355\"]\nmasks = [\"1\", \"-90\", \"90\", \"0.5\", \"2\"]\n";

/// Whether two decimals are the digits and places.
fn is_number(number: Decimal, digits: i64, places: u8) -> bool {
    number.digits() == digits && number.places() == places
}

#[test]
fn the_pole_is_one_station(rt: HostRuntime) -> Result<(), Fail> {
    let Ok(stations) = read_stations(rt.alloc(), POLE.as_bytes()) else {
        assert!(rt; false, "it is read");
        return Ok(());
    };
    assert_eq!(rt; stations.len(), 1, "one station");
    let row = stations.row(0);
    assert!(rt; row.name.bytes() == b"Pole".as_slice(), "its name");
    assert!(rt; is_number(row.lat, 90, 0), "its latitude");
    assert!(rt; is_number(row.lon, 0, 0), "its longitude");
    assert!(rt; is_number(row.height, 0, 0), "its height");
    assert_eq!(rt; row.mask.len(), 4, "four sectors");
    for (k, border) in [0, 90, 180, 270].iter().enumerate() {
        let sector = row.mask.sector(k as u32);
        assert!(rt; is_number(sector.border, *border, 0), "{border}");
        assert!(rt; is_number(sector.floor, 0, 0), "{border}");
    }
    Ok(())
}

#[test]
fn stations_stand_in_the_order_of_the_file(rt: HostRuntime) -> Result<(), Fail> {
    let Ok(stations) = read_stations(rt.alloc(), TWO.as_bytes()) else {
        assert!(rt; false, "it is read");
        return Ok(());
    };
    assert_eq!(rt; stations.len(), 2, "two stations");
    let sea = stations.row(0);
    assert!(rt; sea.name.bytes() == b"Sea".as_slice(), "the first name");
    assert!(rt; is_number(sea.lat, -125, 1), "-12.5");
    assert!(rt; is_number(sea.lon, 359_999, 3), "359.999");
    assert!(rt; is_number(sea.height, -425, 2), "-4.25");
    let hill = stations.row(1);
    assert!(rt; hill.name.bytes() == b"Hill".as_slice(), "the second name");
    assert!(rt; is_number(hill.lat, 9, 0), "+9e0");
    assert_eq!(rt; hill.mask.len(), 5, "five sectors");
    let sectors = [
        (10, 0, 1, 0),
        (995, 1, -90, 0),
        (180, 0, 90, 0),
        (270, 0, 5, 1),
        (355, 0, 2, 0),
    ];
    for (k, (border, border_places, floor, floor_places)) in sectors.iter().enumerate() {
        let sector = hill.mask.sector(k as u32);
        assert!(rt; is_number(sector.border, *border, *border_places), "{k}");
        assert!(rt; is_number(sector.floor, *floor, *floor_places), "{k}");
    }
    Ok(())
}

/// Whether a file is refused for the fault.
fn is_refused(read: Result<Stations, StFault>, wanted: StFault) -> bool {
    match read {
        Ok(_) => false,
        Err(fault) => fault == wanted,
    }
}

/// The lengths, up to the last one, at which a front part of the file of the pole has the fault. Found by
/// tools/stations/prefixes.py.
const PREFIXES: [(usize, StFault); 14] = [
    (
        0,
        StFault::Shape {
            index: 0,
            key: StKey::Version,
        },
    ),
    (10, StFault::NotToml),
    (12, StFault::Empty),
    (22, StFault::NotToml),
    (
        24,
        StFault::Shape {
            index: 1,
            key: StKey::Name,
        },
    ),
    (36, StFault::NotToml),
    (
        38,
        StFault::Shape {
            index: 1,
            key: StKey::Lat,
        },
    ),
    (47, StFault::NotToml),
    (
        49,
        StFault::Shape {
            index: 1,
            key: StKey::Lon,
        },
    ),
    (57, StFault::NotToml),
    (
        59,
        StFault::Shape {
            index: 1,
            key: StKey::Height,
        },
    ),
    (70, StFault::NotToml),
    (
        72,
        StFault::Shape {
            index: 1,
            key: StKey::Borders,
        },
    ),
    (81, StFault::NotToml),
];

#[test]
fn each_front_part_of_a_file_has_its_fault(rt: HostRuntime) {
    let mut from = 0;
    for (last, fault) in &PREFIXES {
        for end in from..*last + 1 {
            if end <= POLE.len() {
                let read = read_stations(rt.alloc(), &POLE.as_bytes()[..end]);
                assert!(rt; is_refused(read, *fault), "{end}");
            }
        }
        from = *last + 1;
    }
    assert_eq!(rt; from, POLE.len() - 1, "all but the last line feed");
    assert!(rt;
        read_stations(rt.alloc(), &POLE.as_bytes()[..from]).is_ok(),
        "{from}"
    );
}
