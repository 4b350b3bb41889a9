//! Messages, and what they say.
use crate::lines::{fault_parts, message_of, with};
use elements::Decimal;
use std::process::Abort;
use std::test::Fail;

/// The decimal has these digits and places.
fn decimal(found: Decimal, digits: i64, places: u8, about: &str, rt: &impl Abort) {
    assert_eq!(rt; found.digits(), digits, "{about}");
    assert_eq!(rt; found.places(), places, "{about}");
}

#[test]
fn a_message_has_the_elements_of_its_two_lines(rt: HostRuntime) -> Result<(), Fail> {
    let text = with(rt.alloc(), 0, "")?;
    match message_of(text.as_slice()) {
        Some(message) => {
            let elements = message.elements;
            assert_eq!(rt; elements.number(), 25544, "the catalogue number");
            assert_eq!(rt;
                elements.epoch().nanos(),
                275_185_540_104_192_000,
                "the epoch"
            );
            decimal(elements.motion(), 1_572_125_391, 8, "the mean motion", &rt);
            decimal(elements.ecc(), 6703, 7, "the eccentricity", &rt);
            decimal(elements.incl(), 516_416, 4, "the inclination", &rt);
            decimal(elements.node(), 2_474_627, 4, "the node", &rt);
            decimal(elements.argp(), 130_536, 3, "the argument of perigee", &rt);
            decimal(elements.anomaly(), 3_250_288, 4, "the mean anomaly", &rt);
            decimal(elements.bstar(), -11606, 9, "the drag term", &rt);
        }
        None => assert!(rt; false, "a message"),
    }
    Ok(())
}

/// The message with this text in place of line 5 has its name at these bytes.
fn name(text: &str, from: u32, to: u32, about: &str, rt: &(impl Abort + AllocGlobal)) {
    let message = with(rt.alloc(), 5, text).expect(rt, "memory is left");
    match message_of(message.as_slice()) {
        Some(message) => {
            assert_eq!(rt; message.name_from, from, "{about}");
            assert_eq!(rt; message.name_to, to, "{about}");
        }
        None => assert!(rt; false, "{about}"),
    }
}

#[test]
fn the_name_stands_at_its_place(rt: HostRuntime) {
    // The line of the name begins at byte 104.
    name("OBJECT_NAME = ISS (ZARYA)", 118, 129, "a name", &rt);
    name("", 0, 0, "no name", &rt);
    name("OBJECT_NAME =", 117, 117, "an empty name", &rt);
    name(
        "OBJECT_NAME = \t \r",
        117,
        117,
        "an empty name before blanks",
        &rt,
    );
    name(
        "\t OBJECT_NAME\t=\t X = Y [Z] \r",
        121,
        130,
        "blanks around a name",
        &rt,
    );
    name("OBJECT_NAME=0 X", 116, 119, "no blanks around a name", &rt);
}

#[test]
fn long_texts_are_read(rt: HostRuntime) -> Result<(), Fail> {
    let mut text = Vec::new(rt.alloc());
    for _ in 0..500_000 {
        text.extend_from_slice(b"X =\n\r\n")?;
    }
    text.extend_from_slice(b"AGOM = ")?;
    for _ in 0..500_000 {
        text.extend_from_slice(b"[ \t]")?;
    }
    let fault = fault_parts(text.as_slice());
    assert!(rt; fault == ("unsupported", "AGOM", 0), "a million lines");
    Ok(())
}
