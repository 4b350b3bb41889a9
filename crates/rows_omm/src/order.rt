//! The order of the keys, in which their faults come whatever the order of the lines.
use crate::lines::fault_parts;
use std::alloc::{AllocError, Global};
use std::test::Fail;

/// How many keys have a fault.
const COUNT: usize = 15;

/// The keys that have a fault, by their order: a value that is read, whether the key is needed, and the fault of `?`.
fn key(place: usize) -> (&'static str, &'static str, bool, &'static str) {
    match place {
        0 => ("CCSDS_OMM_VERS", "3.0", true, "unsupported"),
        1 => ("CENTER_NAME", "EARTH", false, "unsupported"),
        2 => ("REF_FRAME", "TEME", false, "unsupported"),
        3 => ("TIME_SYSTEM", "UTC", false, "unsupported"),
        4 => ("MEAN_ELEMENT_THEORY", "SGP4", true, "unsupported"),
        5 => ("EPOCH", "2008-09-20T12:25:40", true, "value"),
        6 => ("MEAN_MOTION", "15.7", true, "value"),
        7 => ("ECCENTRICITY", "0.5", true, "value"),
        8 => ("INCLINATION", "51", true, "value"),
        9 => ("RA_OF_ASC_NODE", "247", true, "value"),
        10 => ("ARG_OF_PERICENTER", "130", true, "value"),
        11 => ("MEAN_ANOMALY", "325", true, "value"),
        12 => ("NORAD_CAT_ID", "25544", true, "value"),
        13 => ("EPHEMERIS_TYPE", "0", false, "unsupported"),
        _ => ("BSTAR", "0", true, "value"),
    }
}

/// The keys from the last to the first, of which those before this place have values that are read, those behind it
/// have none, and the one at it may be left out.
fn message(alloc: Global, place: usize, left_out: bool) -> Result<Vec<u8>, AllocError> {
    let mut text = Vec::new(alloc);
    let mut index = COUNT;
    for _ in 0..COUNT {
        index = index.wrapping_sub(1);
        if index != place || !left_out {
            let (keyword, value, _, _) = key(index);
            text.extend_from_slice(keyword.as_bytes())?;
            text.extend_from_slice(b" = ")?;
            text.extend_from_slice(if index < place {
                value.as_bytes()
            } else {
                b"?".as_slice()
            })?;
            text.push(b'\n')?;
        }
    }
    Ok(text)
}

#[test]
fn the_first_wrong_value_is_the_fault(rt: HostRuntime) -> Result<(), Fail> {
    for place in 0..COUNT {
        let (keyword, _, _, fault) = key(place);
        let text = message(rt.alloc(), place, false)?;
        assert!(rt;
            fault_parts(text.as_slice()) == (fault, keyword, 0),
            "{keyword}"
        );
    }
    let whole = message(rt.alloc(), COUNT, false)?;
    assert!(rt; fault_parts(whole.as_slice()) == ("", "", 0), "no fault");
    Ok(())
}

#[test]
fn a_missing_key_is_a_fault_in_its_place(rt: HostRuntime) -> Result<(), Fail> {
    for place in 0..COUNT {
        let (keyword, _, needed, _) = key(place);
        let text = message(rt.alloc(), place, true)?;
        let is_missing = fault_parts(text.as_slice()) == ("missing", keyword, 0);
        assert!(rt; is_missing == needed, "{keyword}");
    }
    Ok(())
}
