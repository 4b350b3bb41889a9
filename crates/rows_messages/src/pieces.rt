//! The pieces that made-up files are made of, as in tools/catalogue/expected.py.
use std::alloc::{AllocError, Global};

const VANGUARD: &str = "1 00005U 58002B   00179.78495062  .00000023  00000-0  28098-4 0  4753\n";

const VANGUARD_LATER: &str =
    "1 00005U 58002B   08264.51782528  .00000023  00000-0  28098-4 0  4753\n";

const VANGUARD_2: &str = "2 00005  34.2682 348.7242 1859667 331.7664  19.3264 10.82419157413667\n";

const STATION: &str = "1 25544U 98067A   08264.51782528 -.00002182  00000-0 -11606-4 0  2927\n";

const STATION_EARLIER: &str =
    "1 25544U 98067A   08263.48217472 -.00002182  00000-0 -11606-4 0  2923\n";

const STATION_2: &str = "2 25544  51.6416 247.4627 0006703 130.5360 325.0288 15.72125391563537\n";

const VERSION: &str = "CCSDS_OMM_VERS = 2.0\n";

const OTHER_VERSION: &str = "  CCSDS_OMM_VERS\t=\t3.0 \r\n";

const REST: &str =
    "MEAN_ELEMENT_THEORY = SGP4\nMEAN_MOTION = 15.72125391 [rev/day]\nECCENTRICITY = 0.0006703\nINCLINATION = 51.6416 [deg]\nRA_OF_ASC_NODE = 247.4627 [deg]\nARG_OF_PERICENTER = 130.5360 [deg]\nMEAN_ANOMALY = 325.0288 [deg]\nBSTAR = -.11606E-4 [1/ER]\n";

const FIVE: &str = "NORAD_CAT_ID = 5\nEPOCH = 2008-09-20T00:00:10\n";

const NEAR: &str =
    "NORAD_CAT_ID = 000000005\nEPOCH = 2008-09-20T00:00:09.999999999\nOBJECT_NAME = R\n";

const EARLY: &str = "NORAD_CAT_ID = 25544\nEPOCH = 2008-09-19T23:59:50\nOBJECT_NAME =\n";

const LATE: &str = "NORAD_CAT_ID = 25544\nEPOCH = 2008-09-20T00:00:10\nOBJECT_NAME = 0  Z\t\n";

/// Adds these texts to a file.
fn add(bytes: &mut Vec<u8>, texts: &[&str]) -> Result<(), AllocError> {
    for text in texts {
        bytes.extend_from_slice(text.as_bytes())?;
    }
    Ok(())
}

/// Adds a byte so many times, and then a line feed.
fn add_line_of(bytes: &mut Vec<u8>, byte: u8, count: u32) -> Result<(), AllocError> {
    for _ in 0..count {
        bytes.push(byte)?;
    }
    bytes.push(b'\n')?;
    Ok(())
}

/// Adds a piece of a file of two-line sets.
pub(crate) fn add_lines(bytes: &mut Vec<u8>, piece: u64) -> Result<(), AllocError> {
    match piece {
        0 => add(bytes, &[VANGUARD, VANGUARD_2]),
        1 => add(bytes, &[VANGUARD_LATER, VANGUARD_2]),
        2 => add(bytes, &[STATION, STATION_2]),
        3 => add(bytes, &[STATION_EARLIER, STATION_2]),
        4 => add(bytes, &["0 N\n", VANGUARD, VANGUARD_2]),
        5 => add(bytes, &[" M\n", STATION, STATION_2]),
        6 => add(bytes, &["0 N\n\n", STATION_EARLIER, STATION_2]),
        7 => add(bytes, &["\n"]),
        8 => add(bytes, &[" \t\r\n"]),
        9 => add_ended(bytes),
        10 => add(bytes, &["N\n"]),
        11 => add(bytes, &[VANGUARD]),
        12 => add(bytes, &[VANGUARD_2]),
        13 => add(bytes, &["1 short\n"]),
        14 => add_line_of(bytes, b'L', 69),
        _ => {
            add_line_of(bytes, b'K', 68)?;
            add(bytes, &[VANGUARD_LATER, VANGUARD_2])
        }
    }
}

/// Adds a set with other blanks at the ends of its lines.
fn add_ended(bytes: &mut Vec<u8>) -> Result<(), AllocError> {
    let first = VANGUARD.as_bytes();
    let second = VANGUARD_2.as_bytes();
    bytes.extend_from_slice(first.get(..69).unwrap_or(first))?;
    bytes.extend_from_slice(b"\r\n")?;
    bytes.extend_from_slice(second.get(..69).unwrap_or(second))?;
    bytes.extend_from_slice(b" \r\n")
}

/// Adds a piece of a file of messages.
pub(crate) fn add_message(bytes: &mut Vec<u8>, piece: u64) -> Result<(), AllocError> {
    match piece {
        0 | 6 => add(bytes, &[VERSION, REST, FIVE]),
        1 => add(bytes, &[OTHER_VERSION, REST, EARLY]),
        2 => add(bytes, &[VERSION, REST, NEAR]),
        3 => add(bytes, &[VERSION, REST, LATE]),
        4 => add(bytes, &["\n"]),
        5 => add(bytes, &["COMMENT C\n"]),
        7 => add(bytes, &[OTHER_VERSION, REST, LATE]),
        8 => add(bytes, &[VERSION]),
        9 => add(bytes, &["CCSDS_OMM_VERS\n"]),
        10 => add(bytes, &["CCSDS_OMM_VERSX = 1\n"]),
        11 => add(bytes, &["EPOCH = 2008-09-20T00:00:00\n"]),
        12 => add(bytes, &["A\n"]),
        13 => add(bytes, &[" \t\r\n"]),
        14 => add(bytes, &["OBJECT_NAME = 0 X\n"]),
        _ => add(bytes, &["CCSDS_OMM_VERS = 4.0\n", REST, FIVE]),
    }
}
