//! Files of messages, and their faults.
use crate::texts::{START, expect, has, message, only, read};
use catalogue::{CatFault, SetFault};
use elements::Elements;
use omm_kvn::{Key, OmmFault};
use std::alloc::{AllocError, Global};
use std::process::Abort;
use std::test::Fail;

const EPOCH: &str = "2008-09-20T12:25:40.104192";

/// The epoch in nanoseconds.
const NANOS: i64 = 275_185_540_104_192_000;

/// The fault of a message whose first line has this number.
fn bad(line: u32, fault: OmmFault) -> Option<CatFault> {
    Some(CatFault::BadSet {
        line,
        fault: SetFault::Omm(fault),
    })
}

/// Whether these are the elements of the message.
fn is_station(elements: &Elements) -> bool {
    elements.number() == 25544
        && elements.epoch().nanos() == NANOS
        && has(elements.motion(), 1_572_125_391, 8)
        && has(elements.ecc(), 6703, 7)
        && has(elements.incl(), 516_416, 4)
        && has(elements.node(), 2_474_627, 4)
        && has(elements.argp(), 130_536, 3)
        && has(elements.anomaly(), 3_250_288, 4)
        && has(elements.bstar(), -11606, 9)
}

#[test]
fn a_message_is_read(rt: HostRuntime) -> Result<(), Fail> {
    let text = message(rt.alloc(), "25544", "ISS (ZARYA)", EPOCH)?;
    match read(rt.alloc(), text.as_slice(), START) {
        Ok(catalogue) => {
            assert_eq!(rt; catalogue.len(), 1, "one satellite");
            match catalogue.find(25544) {
                Some(entry) => {
                    assert!(rt; is_station(&entry.elements), "the elements");
                    assert!(rt; entry.name.bytes() == b"ISS (ZARYA)".as_slice(), "the name");
                }
                None => assert!(rt; false, "the number is there"),
            }
        }
        Err(fault) => assert!(rt; false, "{fault:?}"),
    }
    Ok(())
}

/// The message with this text as its name has this name.
fn names(written: &str, name: &[u8], rt: &(impl Abort + AllocGlobal)) -> Result<(), AllocError> {
    let text = message(rt.alloc(), "25544", written, EPOCH)?;
    let read = only(rt.alloc(), text.as_slice(), START, name);
    assert!(rt; read == (25544, NANOS, true), "{written}");
    Ok(())
}

#[test]
fn names_are_made_as_those_of_lines(rt: HostRuntime) -> Result<(), Fail> {
    names("ISS (ZARYA)", b"ISS (ZARYA)", &rt)?;
    names("", b"-", &rt)?;
    names(" \t ", b"-", &rt)?;
    names("0 X", b"X", &rt)?;
    names("X\t= Y [Z]", b"X?= Y [Z]", &rt)?;
    names("0", b"0", &rt)?;
    Ok(())
}

/// The message behind this text is read.
fn reads_behind(before: &[u8], rt: &(impl Abort + AllocGlobal)) -> Result<(), AllocError> {
    let text = message(rt.alloc(), "25544", "", EPOCH)?;
    let mut bytes = Vec::new(rt.alloc());
    bytes.extend_from_slice(before)?;
    bytes.extend_from_slice(text.as_slice())?;
    let read = only(rt.alloc(), bytes.as_slice(), START, b"-");
    assert!(rt; read == (25544, NANOS, true), "{before:?}");
    Ok(())
}

#[test]
fn a_file_may_begin_with_blank_lines(rt: HostRuntime) -> Result<(), Fail> {
    reads_behind(b"", &rt)?;
    reads_behind(b"\n", &rt)?;
    reads_behind(b" \t\r\n\r\n \n", &rt)?;
    Ok(())
}

/// A file of the pieces of a text, which are parted by bars, each with a line feed behind it. A `W` is a whole message, an `L` one whose epoch is too late;
/// these have 19 lines, and an empty one behind.
fn file(alloc: Global, text: &str) -> Result<Vec<u8>, AllocError> {
    let mut bytes = Vec::new(alloc);
    for piece in text.split('|') {
        match piece {
            "W" => {
                let text = message(alloc, "25544", "", EPOCH)?;
                bytes.extend_from_slice(text.as_slice())?;
            }
            "L" => {
                let text = message(alloc, "25544", "", "2057-09-20T12:25:40")?;
                bytes.extend_from_slice(text.as_slice())?;
            }
            other => bytes.extend_from_slice(other.as_bytes())?,
        }
        bytes.push(b'\n')?;
    }
    Ok(bytes)
}

/// The file with these pieces has this fault, or none.
fn answers(
    text: &str,
    fault: Option<CatFault>,
    rt: &(impl Abort + AllocGlobal),
) -> Result<(), AllocError> {
    let bytes = file(rt.alloc(), text)?;
    expect(bytes.as_slice(), fault, text, rt);
    Ok(())
}

#[test]
fn messages_begin_with_their_version(rt: HostRuntime) -> Result<(), Fail> {
    answers("W|W|W", None, &rt)?;
    answers("W|L|W", bad(21, OmmFault::Value { key: Key::Epoch }), &rt)?;
    answers(
        "|W|W|L|L",
        bad(42, OmmFault::Value { key: Key::Epoch }),
        &rt,
    )?;
    answers(
        "CCSDS_OMM_VERS = 2.0|W",
        bad(1, OmmFault::Missing { key: Key::Theory }),
        &rt,
    )?;
    answers("|CCSDS_OMM_VERS", bad(2, OmmFault::Line { line: 1 }), &rt)?;
    answers(
        "CCSDS_OMM_VERSX = 1|W",
        bad(1, OmmFault::Missing { key: Key::Version }),
        &rt,
    )?;
    answers("CCSDS_OMM_VERSX|W", bad(1, OmmFault::Line { line: 1 }), &rt)?;
    answers(
        "CCSDS_OMM_VERS=|W",
        bad(1, OmmFault::Unsupported { key: Key::Version }),
        &rt,
    )?;
    Ok(())
}

#[test]
fn messages_go_on_to_the_next_version(rt: HostRuntime) -> Result<(), Fail> {
    answers(
        "W|CCSDS_OMM_VERS|W",
        bad(1, OmmFault::Line { line: 21 }),
        &rt,
    )?;
    answers("W|CCSDS_OMM_VERSX = 1|W", None, &rt)?;
    answers("W|A|W", bad(1, OmmFault::Line { line: 21 }), &rt)?;
    answers(
        "W|CCSDS_OMM_VERS = 2.0||A",
        bad(21, OmmFault::Line { line: 3 }),
        &rt,
    )?;
    answers(
        "W| \tCCSDS_OMM_VERS\t= 2.0 \r|A",
        bad(21, OmmFault::Line { line: 2 }),
        &rt,
    )?;
    answers("W|COMMENT CCSDS_OMM_VERS = 2.0|W", None, &rt)?;
    answers(
        "W|EPOCH = 2008-09-20T12:25:40|W",
        bad(1, OmmFault::Twice { key: Key::Epoch }),
        &rt,
    )?;
    answers(
        "W|||CCSDS_OMM_VERS = 4.0",
        bad(23, OmmFault::Unsupported { key: Key::Version }),
        &rt,
    )?;
    Ok(())
}
