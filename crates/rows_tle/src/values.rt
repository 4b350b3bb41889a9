use crate::lines::{STATION1, STATION2, VANGUARD1, VANGUARD2, with};
use elements::{Decimal, Elements};
use std::process::Abort;
use tle_read::read_pair;

/// The elements of two lines that have some.
fn elements(line1: &[u8; 69], line2: &[u8; 69], rt: &impl Abort) -> Elements {
    match read_pair(line1, line2) {
        Ok(elements) => elements,
        Err(fault) => panic!(rt; "no elements: {fault:?}"),
    }
}

/// The decimal has these digits and places.
fn decimal(found: Decimal, digits: i64, places: u8, rt: &impl Abort) {
    assert_eq!(rt; found.digits(), digits, "{digits}, {places} places");
    assert_eq!(rt; found.places(), places, "{digits}, {places} places");
}

#[test]
fn vanguard_has_its_published_elements(rt: HostRuntime) {
    let set = elements(VANGUARD1, VANGUARD2, &rt);
    assert_eq!(rt; set.number(), 5);
    assert_eq!(rt; set.epoch().nanos(), 15_403_819_733_568_000);
    decimal(set.motion(), 10_82419157, 8, &rt);
    decimal(set.ecc(), 1859667, 7, &rt);
    decimal(set.incl(), 34_2682, 4, &rt);
    decimal(set.node(), 348_7242, 4, &rt);
    decimal(set.argp(), 331_7664, 4, &rt);
    decimal(set.anomaly(), 19_3264, 4, &rt);
    decimal(set.bstar(), 28098, 9, &rt);
}

#[test]
fn the_station_has_its_published_elements(rt: HostRuntime) {
    let set = elements(STATION1, STATION2, &rt);
    assert_eq!(rt; set.number(), 25544);
    assert_eq!(rt; set.epoch().nanos(), 275_185_540_104_192_000);
    decimal(set.motion(), 15_72125391, 8, &rt);
    decimal(set.ecc(), 6703, 7, &rt);
    decimal(set.incl(), 51_6416, 4, &rt);
    decimal(set.node(), 247_4627, 4, &rt);
    decimal(set.argp(), 130_536, 3, &rt);
    decimal(set.anomaly(), 325_0288, 4, &rt);
    decimal(set.bstar(), -11606, 9, &rt);
}

/// A text in place of the number in both lines, with these check digits, has this value.
fn number(text: &str, last1: u8, last2: u8, wanted: u32, rt: &impl Abort) {
    let line1 = with(VANGUARD1, 3, text.as_bytes(), last1);
    let line2 = with(VANGUARD2, 3, text.as_bytes(), last2);
    assert_eq!(rt; elements(&line1, &line2, rt).number(), wanted, "{text}");
}

#[test]
fn numbers_may_begin_with_a_letter(rt: HostRuntime) {
    number("A0005", b'3', b'7', 100_005, &rt);
    number("H9999", b'4', b'8', 179_999, &rt);
    number("J0000", b'8', b'2', 180_000, &rt);
    number("N9999", b'4', b'8', 229_999, &rt);
    number("P0000", b'8', b'2', 230_000, &rt);
    number("Z9999", b'4', b'8', 339_999, &rt);
    number("    7", b'5', b'9', 7, &rt);
    number("00000", b'8', b'2', 0, &rt);
    number("99999", b'3', b'7', 99_999, &rt);
    number("  042", b'4', b'8', 42, &rt);
}

#[test]
fn each_letter_stands_for_its_ten_thousands(rt: HostRuntime) {
    let mut tens = 10u32;
    for letter in "ABCDEFGHJKLMNPQRSTUVWXYZ".as_bytes() {
        let line1 = with(VANGUARD1, 3, &[*letter], b'3');
        let line2 = with(VANGUARD2, 3, &[*letter], b'7');
        let number = elements(&line1, &line2, &rt).number();
        assert_eq!(rt; number % 10_000, 5, "{tens}");
        assert_eq!(rt; number / 10_000, tens, "{tens}");
        tens = tens.wrapping_add(1);
    }
    assert_eq!(rt; tens, 34, "10 to 33");
}

/// Line 1 with a text from its year on, and this check digit, has this epoch, in nanoseconds from 2000-01-01T12:00:00 UTC.
fn epoch(text: &str, last: u8, nanos: i64, rt: &impl Abort) {
    let line = with(VANGUARD1, 19, text.as_bytes(), last);
    assert_eq!(rt;
        elements(&line, VANGUARD2, rt).epoch().nanos(),
        nanos,
        "{text}"
    );
}

#[test]
fn epochs_are_whole_nanoseconds(rt: HostRuntime) {
    epoch(" 8", b'1', 267_864_619_733_568_000, &rt);
    epoch("57", b'5', -1_341_508_180_266_432_000, &rt);
    epoch("56", b'4', 1_782_629_419_733_568_000, &rt);
    epoch("00366.99999999", b'2', 31_579_199_999_136_000, &rt);
    epoch("01365.99999999", b'2', 63_115_199_999_136_000, &rt);
    epoch("00001.00000000", b'6', -43_200_000_000_000, &rt);
    epoch("00           1", b'6', -43_200_000_000_000, &rt);
    epoch("001.0000000001", b'7', -43_199_999_991_360, &rt);
    epoch("009.9999999999", b'4', 734_399_999_991_360, &rt);
}

/// Line 1 with this drag term and check digit has these digits and places.
fn drag(text: &str, last: u8, digits: i64, places: u8, rt: &impl Abort) {
    let line = with(VANGUARD1, 54, text.as_bytes(), last);
    decimal(elements(&line, VANGUARD2, rt).bstar(), digits, places, rt);
}

#[test]
fn drag_terms_have_two_signs(rt: HostRuntime) {
    drag(" 28098-4", b'3', 28098, 9, &rt);
    drag(" 00000+0", b'1', 0, 0, &rt);
    drag("-00000-0", b'3', 0, 0, &rt);
    drag("-11606-4", b'1', -11606, 9, &rt);
    drag("+12345+9", b'5', 123_450_000, 0, &rt);
    drag("-10000-9", b'3', -1, 10, &rt);
    drag(" 12345 1", b'7', 12345, 4, &rt);
    drag(" 28098 4", b'2', 28098, 1, &rt);
}

/// Line 2 with this eccentricity and check digit has these digits and places.
fn eccentricity(text: &str, last: u8, digits: i64, places: u8, rt: &impl Abort) {
    let line = with(VANGUARD2, 27, text.as_bytes(), last);
    decimal(elements(VANGUARD1, &line, rt).ecc(), digits, places, rt);
}

#[test]
fn spaces_in_front_of_an_eccentricity_count_as_0(rt: HostRuntime) {
    eccentricity("       ", b'5', 0, 0, &rt);
    eccentricity("  12345", b'0', 12345, 7, &rt);
    eccentricity("9999999", b'8', 9_999_999, 7, &rt);
    eccentricity("1234567", b'3', 1_234_567, 7, &rt);
}

/// Line 2 with this inclination and check digit has these digits and places.
fn inclination(text: &str, last: u8, digits: i64, places: u8, rt: &impl Abort) {
    let line = with(VANGUARD2, 9, text.as_bytes(), last);
    decimal(elements(VANGUARD1, &line, rt).incl(), digits, places, rt);
}

#[test]
fn a_number_in_fixed_point_may_stand_between_spaces(rt: HostRuntime) {
    inclination("   1    ", b'3', 1, 0, &rt);
    inclination("   1.   ", b'3', 1, 0, &rt);
    inclination(" 1.50   ", b'8', 15, 1, &rt);
    inclination("     .25", b'9', 25, 2, &rt);
}
