use crate::calls::shown_by;
use crate::files::{MESSAGE, STATION_WORDS, VANGUARD_SHOWN, VANGUARD1, VANGUARD2, WORDS};
use std::alloc::{AllocError, Global};
use std::process::Abort;
use std::test::Fail;

/// The file is cut to each length from the first to the last, and then this is written, with this status.
fn cuts(
    words: &str,
    file: &[u8],
    first: usize,
    last: usize,
    wanted: &[u8],
    wanted_status: u8,
    rt: &(impl Abort + AllocGlobal),
) -> Result<(), AllocError> {
    for len in first..last.saturating_add(1) {
        let cut = file.get(..len);
        assert!(rt; cut.is_some(), "no longer than {len}");
        let (out, status) = shown_by(rt.alloc(), words.as_bytes(), cut.unwrap_or(&[]))?;
        assert_eq!(rt; out.written(), wanted, "cut to {len}");
        assert_eq!(rt; status, wanted_status, "cut to {len}");
    }
    Ok(())
}

#[test]
fn a_file_that_is_cut_off_has_a_fault(rt: HostRuntime) -> Result<(), Fail> {
    // Two lines of 69 bytes with a line feed between them.
    let mut file = Vec::new(rt.alloc());
    file.extend_from_slice(VANGUARD1)?;
    file.push(b'\n')?;
    file.extend_from_slice(VANGUARD2)?;
    let file = file.as_slice();
    cuts(WORDS, file, 0, 0, b"error catalogue empty\n", 4, &rt)?;
    cuts(WORDS, file, 1, 70, b"error catalogue odd 1\n", 4, &rt)?;
    cuts(
        WORDS,
        file,
        71,
        72,
        b"error catalogue set 1 tle length 2 1\n",
        4,
        &rt,
    )?;
    cuts(
        WORDS,
        file,
        73,
        73,
        b"error catalogue set 1 tle length 2 3\n",
        4,
        &rt,
    )?;
    cuts(
        WORDS,
        file,
        138,
        138,
        b"error catalogue set 1 tle length 2 68\n",
        4,
        &rt,
    )?;
    cuts(WORDS, file, 139, 139, VANGUARD_SHOWN, 0, &rt)?;
    Ok(())
}

/// What is written of the beginnings of the message up to each length: the fault, or the mean anomaly of what is shown.
/// Found by tools/catalogue/prefixes.py.
const BEGINNINGS: [(usize, &str); 69] = [
    (0, "empty"),
    (13, "odd 1"),
    (15, "set 1 omm line 1"),
    (19, "set 1 omm unsupported CCSDS_OMM_VERS"),
    (21, "set 1 omm missing MEAN_ELEMENT_THEORY"),
    (27, "set 1 omm line 2"),
    (55, "set 1 omm missing MEAN_ELEMENT_THEORY"),
    (69, "set 1 omm line 3"),
    (91, "set 1 omm missing MEAN_ELEMENT_THEORY"),
    (102, "set 1 omm line 4"),
    (104, "set 1 omm missing MEAN_ELEMENT_THEORY"),
    (116, "set 1 omm line 5"),
    (130, "set 1 omm missing MEAN_ELEMENT_THEORY"),
    (140, "set 1 omm line 6"),
    (152, "set 1 omm missing MEAN_ELEMENT_THEORY"),
    (164, "set 1 omm line 7"),
    (170, "set 1 omm unsupported CENTER_NAME"),
    (172, "set 1 omm missing MEAN_ELEMENT_THEORY"),
    (182, "set 1 omm line 8"),
    (187, "set 1 omm unsupported REF_FRAME"),
    (189, "set 1 omm missing MEAN_ELEMENT_THEORY"),
    (201, "set 1 omm line 9"),
    (205, "set 1 omm unsupported TIME_SYSTEM"),
    (207, "set 1 omm missing MEAN_ELEMENT_THEORY"),
    (227, "set 1 omm line 10"),
    (232, "set 1 omm unsupported MEAN_ELEMENT_THEORY"),
    (234, "set 1 omm missing EPOCH"),
    (240, "set 1 omm line 11"),
    (260, "set 1 omm missing EPOCH"),
    (266, "set 1 omm line 12"),
    (286, "set 1 omm value EPOCH"),
    (287, "set 1 omm missing MEAN_MOTION"),
    (288, "set 1 omm value EPOCH"),
    (295, "set 1 omm missing MEAN_MOTION"),
    (308, "set 1 omm line 13"),
    (316, "set 1 omm missing MEAN_MOTION"),
    (328, "set 1 omm line 14"),
    (330, "set 1 omm value MEAN_MOTION"),
    (342, "set 1 omm missing ECCENTRICITY"),
    (350, "set 1 omm value MEAN_MOTION"),
    (352, "set 1 omm missing ECCENTRICITY"),
    (365, "set 1 omm line 15"),
    (367, "set 1 omm value ECCENTRICITY"),
    (377, "set 1 omm missing INCLINATION"),
    (389, "set 1 omm line 16"),
    (391, "set 1 omm value INCLINATION"),
    (399, "set 1 omm missing RA_OF_ASC_NODE"),
    (403, "set 1 omm value INCLINATION"),
    (405, "set 1 omm missing RA_OF_ASC_NODE"),
    (420, "set 1 omm line 17"),
    (422, "set 1 omm value RA_OF_ASC_NODE"),
    (431, "set 1 omm missing ARG_OF_PERICENTER"),
    (435, "set 1 omm value RA_OF_ASC_NODE"),
    (437, "set 1 omm missing ARG_OF_PERICENTER"),
    (455, "set 1 omm line 18"),
    (457, "set 1 omm value ARG_OF_PERICENTER"),
    (466, "set 1 omm missing MEAN_ANOMALY"),
    (470, "set 1 omm value ARG_OF_PERICENTER"),
    (472, "set 1 omm missing MEAN_ANOMALY"),
    (485, "set 1 omm line 19"),
    (487, "set 1 omm value MEAN_ANOMALY"),
    (488, "3"),
    (489, "32"),
    (492, "325"),
    (493, "325.02"),
    (494, "325.028"),
    (496, "325.0288"),
    (500, "set 1 omm value MEAN_ANOMALY"),
    (502, "325.0288"),
];

/// The message's elements before its mean anomaly, and what stands behind it, as they are printed.
const SHOWN_BEFORE: &[u8] =
    b"PASSSHOW 1\nSET 25544 2008-09-20T12:25:40.104192000Z 15.72125391 0.0006703 51.6416 247.4627 130.536 ";

const SHOWN_BEHIND: &[u8] = b" -0.000011606 ISS (ZARYA)\nEND\n";

/// What is written of a beginning with this fault, or with this mean anomaly.
fn written(alloc: Global, found: &str, is_fault: bool) -> Result<Vec<u8>, AllocError> {
    let mut bytes = Vec::new(alloc);
    bytes.extend_from_slice(if is_fault {
        b"error catalogue "
    } else {
        SHOWN_BEFORE
    })?;
    bytes.extend_from_slice(found.as_bytes())?;
    bytes.extend_from_slice(if is_fault { b"\n" } else { SHOWN_BEHIND })?;
    Ok(bytes)
}

#[test]
fn each_beginning_of_a_message_is_a_message_or_has_a_fault(rt: HostRuntime) -> Result<(), Fail> {
    let mut from = 0;
    for (last, found) in &BEGINNINGS {
        let is_fault = !found.starts_with("3");
        let wanted = written(rt.alloc(), found, is_fault)?;
        let status = if is_fault { 4 } else { 0 };
        cuts(
            STATION_WORDS,
            MESSAGE,
            from,
            *last,
            wanted.as_slice(),
            status,
            &rt,
        )?;
        from = last.saturating_add(1);
    }
    assert_eq!(rt; from, MESSAGE.len() + 1, "the whole message");
    Ok(())
}
