//! Why there is no plan.
use crate::calls::{writes, writes_failing};
use crate::given::{DEEP, POLE, POLE_FAR, POLE_NUMBER, POLE_TWICE, an_hour};
use std::alloc::{AllocError, Global};
use std::test::Fail;

#[test]
fn the_first_fault_of_the_files_is_the_one_line(rt: HostRuntime) -> Result<(), Fail> {
    let rows: [(&[u8], &[u8], &[u8], u8); 7] = [
        (b"", POLE, b"error catalogue empty\n", 4),
        (b"\n \n", b"\xff", b"error catalogue empty\n", 4),
        (DEEP, b"\xff", b"error stations notutf8\n", 5),
        (DEEP, b"", b"error stations shape 0 version\n", 5),
        (DEEP, POLE_NUMBER, b"error stations shape 1 lat\n", 5),
        (DEEP, POLE_FAR, b"error stations range 1 lat\n", 5),
        (DEEP, POLE_TWICE, b"error stations twice 2\n", 5),
    ];
    for (catalogue, stations, wanted, status) in &rows {
        writes(catalogue, stations, an_hour(), wanted, *status, &rt)?;
    }
    Ok(())
}

#[test]
fn a_load_that_fails_is_told(rt: HostRuntime) -> Result<(), Fail> {
    writes_failing(DEEP, 1, 0, b"error read\n", 6, &rt)?;
    writes_failing(DEEP, 2, 0, b"error read\n", 6, &rt)?;
    writes_failing(DEEP, 1, 1, b"error", 6, &rt)?;
    writes_failing(DEEP, 2, 1, b"error", 6, &rt)?;
    // A catalogue that is none is refused before the stations are loaded.
    writes_failing(b"", 2, 0, b"error catalogue empty\n", 4, &rt)?;
    Ok(())
}

/// What is written of the beginnings of the station file up to each length. Found by tools/stations/prefixes.py.
const BEGINNINGS: [(usize, &str); 14] = [
    (0, "shape 0 version"),
    (10, "nottoml"),
    (12, "empty"),
    (22, "nottoml"),
    (24, "shape 1 name"),
    (36, "nottoml"),
    (38, "shape 1 lat"),
    (47, "nottoml"),
    (49, "shape 1 lon"),
    (57, "nottoml"),
    (59, "shape 1 height"),
    (70, "nottoml"),
    (72, "shape 1 borders"),
    (81, "nottoml"),
];

/// The line of a fault of the stations.
fn line_of(alloc: Global, fault: &str) -> Result<Vec<u8>, AllocError> {
    let mut line = Vec::new(alloc);
    line.extend_from_slice(b"error stations ")?;
    line.extend_from_slice(fault.as_bytes())?;
    line.push(b'\n')?;
    Ok(line)
}

#[test]
fn each_beginning_of_the_stations_has_its_fault(rt: HostRuntime) -> Result<(), Fail> {
    let mut from = 0;
    for (last, fault) in &BEGINNINGS {
        let wanted = line_of(rt.alloc(), fault)?;
        for length in from..last.saturating_add(1) {
            let beginning = POLE.get(..length).unwrap_or(&[]);
            writes(DEEP, beginning, an_hour(), wanted.as_slice(), 5, &rt)?;
        }
        from = last.saturating_add(1);
    }
    assert_eq!(rt; from, POLE.len() - 1, "all but the last line feed");
    Ok(())
}
