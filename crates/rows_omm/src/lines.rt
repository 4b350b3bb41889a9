//! A message of the International Space Station on 20 September 2008, and copies of it with another line.
use omm_kvn::{Message, OmmFault, read_message};
use std::alloc::{AllocError, Global};
use std::process::Abort;

/// The message, which has the elements of a published two-line set.
const MESSAGE: &str = "\
CCSDS_OMM_VERS = 2.0
COMMENT keywords in another order
CREATION_DATE = 2008-09-21T00:00:00
ORIGINATOR =
OBJECT_NAME = ISS (ZARYA)
OBJECT_ID = 1998-067A
CENTER_NAME = EARTH
REF_FRAME = TEME
TIME_SYSTEM = UTC
MEAN_ELEMENT_THEORY = SGP4
BSTAR = -.11606E-4 [1/ER]
EPOCH = 2008-09-20T12:25:40.104192
NORAD_CAT_ID = 25544
MEAN_MOTION = 15.72125391 [rev/day]
ECCENTRICITY = 0.0006703
INCLINATION = 51.6416 [deg]
RA_OF_ASC_NODE = 247.4627 [deg]
ARG_OF_PERICENTER = 130.5360 [deg]
MEAN_ANOMALY = 325.0288 [deg]
";

/// The lines of a message, with a text in place of the one with this number, counted from 1.
fn replaced(
    alloc: Global,
    message: &str,
    number: usize,
    text: &str,
) -> Result<Vec<u8>, AllocError> {
    let mut bytes = Vec::new(alloc);
    let mut count = 0usize;
    for line in message.lines() {
        count = count.wrapping_add(1);
        let kept = if count == number { text } else { line };
        bytes.extend_from_slice(kept.as_bytes())?;
        bytes.push(b'\n')?;
    }
    Ok(bytes)
}

/// The message with this text in place of the line with this number, counted from 1.
pub(crate) fn with(alloc: Global, number: usize, text: &str) -> Result<Vec<u8>, AllocError> {
    replaced(alloc, MESSAGE, number, text)
}

/// The fault of a text, the keyword and the line that it names; and nothing of a message.
pub(crate) fn fault_parts(text: &[u8]) -> (&'static str, &'static str, u32) {
    if text.len() > 16_777_216 {
        return ("too long", "", 0);
    }
    match read_message(text).err() {
        None => ("", "", 0),
        Some(OmmFault::Line { line }) => ("line", "", line),
        Some(OmmFault::Twice { key }) => ("twice", key.keyword(), 0),
        Some(OmmFault::Unsupported { key }) => ("unsupported", key.keyword(), 0),
        Some(OmmFault::Missing { key }) => ("missing", key.keyword(), 0),
        Some(OmmFault::Value { key }) => ("value", key.keyword(), 0),
    }
}

/// The message of a text that is not too long.
pub(crate) fn message_of(text: &[u8]) -> Option<Message> {
    if text.len() > 16_777_216 {
        return None;
    }
    read_message(text).ok()
}

/// The message with a text in place of the line with this number has this fault, its keyword and its line.
fn answers(number: usize, text: &str, wanted: (&str, &str, u32), rt: &(impl Abort + AllocGlobal)) {
    let message = with(rt.alloc(), number, text).expect(rt, "memory is left");
    assert_eq!(rt; fault_parts(message.as_slice()), wanted, "{text}");
}

/// The message with a text in place of the line with this number is read.
pub(crate) fn reads(number: usize, text: &str, rt: &(impl Abort + AllocGlobal)) {
    answers(number, text, ("", "", 0), rt);
}

/// The message with a text in place of the line with this number lacks this keyword.
pub(crate) fn missing(number: usize, text: &str, keyword: &str, rt: &(impl Abort + AllocGlobal)) {
    answers(number, text, ("missing", keyword, 0), rt);
}

/// The message with a text in place of the line with this number has this keyword twice.
pub(crate) fn twice(number: usize, text: &str, keyword: &str, rt: &(impl Abort + AllocGlobal)) {
    answers(number, text, ("twice", keyword, 0), rt);
}

/// The message with a text in place of the line with this number has a value of this keyword that is not read.
pub(crate) fn unsupported(
    number: usize,
    text: &str,
    keyword: &str,
    rt: &(impl Abort + AllocGlobal),
) {
    answers(number, text, ("unsupported", keyword, 0), rt);
}

/// The message with a text in place of the line with this number has a value of this keyword out of its form or range.
pub(crate) fn value(number: usize, text: &str, keyword: &str, rt: &(impl Abort + AllocGlobal)) {
    answers(number, text, ("value", keyword, 0), rt);
}

/// The message with a text in place of the line with this number has a line that is none of its kinds.
pub(crate) fn refuses_line(number: usize, text: &str, line: u32, rt: &(impl Abort + AllocGlobal)) {
    answers(number, text, ("line", "", line), rt);
}
