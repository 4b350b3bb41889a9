//! Decimals read from texts. The expected digits and places are made by Python's `decimal` module and by hand.
use decimals::{NumFault, read_decimal};

#[test]
fn texts_are_read(rt: HostRuntime) {
    for (text, digits, places) in [
        ("-.11606E-4", -11606, 9),
        ("130.5360", 130536, 3),
        ("0.000", 0, 0),
        ("-0", 0, 0),
        ("+1.", 1, 0),
        (".5", 5, 1),
        ("999999999999999999", 999_999_999_999_999_999, 0),
        ("1E17", 100_000_000_000_000_000, 0),
        ("0.000000000000000001", 1, 18),
        ("1E-18", 1, 18),
        ("0E999", 0, 0),
        ("00000000000000000000001", 1, 0),
        ("12.5e+2", 1250, 0),
        ("12.5e-002", 125, 3),
        ("1230000000000000000000000E-10", 123_000_000_000_000, 0),
        ("0.00000000000000000000001e5", 1, 18),
        ("15.72125391", 1_572_125_391, 8),
    ] {
        match read_decimal(text.as_bytes()) {
            Ok(decimal) => {
                assert_eq!(rt; decimal.digits(), digits, "digits of {text}");
                assert_eq!(rt; decimal.places(), places, "places of {text}");
            }
            Err(_) => assert!(rt; false, "{text} is refused"),
        }
    }
}

#[test]
fn other_texts_are_refused(rt: HostRuntime) {
    for (text, fault) in [
        ("", NumFault::Shape),
        (".", NumFault::Shape),
        ("-", NumFault::Shape),
        ("+-1", NumFault::Shape),
        ("1.2.3", NumFault::Shape),
        ("1E", NumFault::Shape),
        ("1E+", NumFault::Shape),
        ("1E1000", NumFault::Shape),
        ("1E5E5", NumFault::Shape),
        ("1E5.0", NumFault::Shape),
        ("E5", NumFault::Shape),
        (" 1", NumFault::Shape),
        ("1 ", NumFault::Shape),
        ("1_000", NumFault::Shape),
        ("1/2", NumFault::Shape),
        ("1:2", NumFault::Shape),
        ("1e0:", NumFault::Shape),
        ("12345678901234567890x", NumFault::Shape),
        ("1234567890123456789", NumFault::TooFine),
        ("1E-19", NumFault::TooFine),
        ("1000000000000000000", NumFault::TooFine),
        ("1E18", NumFault::TooFine),
        ("1E+999", NumFault::TooFine),
        ("1E-999", NumFault::TooFine),
        ("0.0000000000000000001", NumFault::TooFine),
    ] {
        match read_decimal(text.as_bytes()) {
            Ok(_) => assert!(rt; false, "{text} is read"),
            Err(found) => assert!(rt; found == fault, "fault of {text}"),
        }
    }
}
