//! Station files of both versions, and the offset of UT1 from UTC.
use station_file::{StFault, StKey, Stations, read_stations};
use std::test::Fail;

/// A station at the north pole, with a flat mask.
const STATION: &str =
    "[[station]]\nname = \"Pole\"\nlat = \"90\"\nlon = \"0\"\nheight = \"0\"\nmask = \"0\"\n";

/// The offset of a file, or its fault.
fn offset(read: Result<Stations, StFault>) -> Result<i32, StFault> {
    match read {
        Ok(stations) => Ok(stations.dut1_ms()),
        Err(fault) => Err(fault),
    }
}

/// The fault of the form of a key of the file itself.
fn shape(key: StKey) -> Result<i32, StFault> {
    Err(StFault::Shape { index: 0, key })
}

#[test]
fn the_second_version_has_an_offset(rt: HostRuntime) -> Result<(), Fail> {
    let far = Err(StFault::Range {
        index: 0,
        key: StKey::Dut1,
    });
    let rows: [(&str, Result<i32, StFault>); 16] = [
        ("version = 1", Ok(0)),
        ("version = 2\ndut1_ms = 0", Ok(0)),
        ("version = 2\ndut1_ms = -334", Ok(-334)),
        ("dut1_ms = +900\nversion = 2", Ok(900)),
        ("version = 0x2\ndut1_ms = -900", Ok(-900)),
        ("version = 2\ndut1_ms = 901", far),
        ("version = 2\ndut1_ms = -901", far),
        ("version = 2\ndut1_ms = 9223372036854775807", far),
        ("version = 2\ndut1_ms = -9223372036854775808", far),
        ("version = 2", shape(StKey::Dut1)),
        ("version = 2\ndut1_ms = \"0\"", shape(StKey::Dut1)),
        ("version = 2\ndut1_ms = 0.0", shape(StKey::Dut1)),
        ("version = 2\ndut1_ms = 901\nodd = 1", shape(StKey::Other)),
        ("version = 1\ndut1_ms = 0", shape(StKey::Other)),
        ("version = 3\ndut1_ms = 0", shape(StKey::Version)),
        ("dut1_ms = 0", shape(StKey::Version)),
    ];
    for (top, answer) in &rows {
        let text = format!(in rt.alloc(); "{top}\n{STATION}")?;
        let found = offset(read_stations(rt.alloc(), text.as_bytes()));
        assert_eq!(rt; found, *answer, "{top}");
    }
    Ok(())
}

#[test]
fn the_offset_is_judged_before_the_stations(rt: HostRuntime) {
    let far = Err(StFault::Range {
        index: 0,
        key: StKey::Dut1,
    });
    let rows: [(&str, Result<i32, StFault>); 5] = [
        ("version = 2\ndut1_ms = 901\nstation = 1", far),
        ("version = 2\nstation = 1", shape(StKey::Dut1)),
        (
            "version = 2\ndut1_ms = 0\nstation = 1",
            shape(StKey::Station),
        ),
        ("version = 2\ndut1_ms = 0", Err(StFault::Empty)),
        (
            "version = 2\ndut1_ms = 0\nstation = []",
            Err(StFault::Empty),
        ),
    ];
    for (text, answer) in &rows {
        let found = offset(read_stations(rt.alloc(), text.as_bytes()));
        assert_eq!(rt; found, *answer, "{text}");
    }
}

#[test]
fn the_key_is_printed_with_its_unit(rt: HostRuntime) {
    assert!(rt; StKey::Dut1.name() == "dut1_ms", "its name");
}
