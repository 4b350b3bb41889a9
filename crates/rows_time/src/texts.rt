//! The texts of instants, beside those that Python's `datetime` gives.
use civil_time::{Instant, read_utc};

/// Nanoseconds from 2000-01-01T12:00:00, and the text with nine decimals.
const TEXTS: [(i64, &str); 24] = [
    (0, "2000-01-01T12:00:00.000000000Z"),
    (-1, "2000-01-01T11:59:59.999999999Z"),
    (1, "2000-01-01T12:00:00.000000001Z"),
    (-43_200_000_000_000, "2000-01-01T00:00:00.000000000Z"),
    (-1_356_955_200_000_000_000, "1957-01-01T00:00:00.000000000Z"),
    (1_798_804_799_999_999_999, "2056-12-31T23:59:59.999999999Z"),
    (5_140_799_999_999_999, "2000-02-29T23:59:59.999999999Z"),
    (-43_200_999_999_999, "1999-12-31T23:59:59.000000001Z"),
    (275_185_540_104_192_000, "2008-09-20T12:25:40.104192000Z"),
    (-867_931_200_000_100_000, "1972-06-30T23:59:59.999900000Z"),
    (1_772_280_000_000_100_000, "2056-02-29T00:00:00.000100000Z"),
    (-946_727_999_999_900_001, "1970-01-01T00:00:00.000099999Z"),
    (788_920_496_789_012_345, "2024-12-31T12:34:56.789012345Z"),
    (-1_333_038_686_000_000_000, "1957-10-04T19:28:34.000000000Z"),
    (41_762_675_470_837_207, "2001-04-28T20:44:35.470837207Z"),
    (851_481_594_773_738_153, "2026-12-25T14:39:54.773738153Z"),
    (-941_441_148_083_387_558, "1970-03-03T04:34:11.916612442Z"),
    (-1_265_564_600_667_430_351, "1959-11-24T18:16:39.332569649Z"),
    (1_176_713_599_535_557_430, "2037-04-15T20:53:19.535557430Z"),
    (-22_445_111_285_605_879, "1999-04-16T17:14:48.714394121Z"),
    (-1_085_571_052_391_419_304, "1965-08-08T00:29:07.608580696Z"),
    (1_042_686_137_815_124_204, "2033-01-15T15:02:17.815124204Z"),
    (304_381_222_329_867_374, "2009-08-24T10:20:22.329867374Z"),
    (-149_986_685_477_694_450, "1995-04-01T13:01:54.522305550Z"),
];

/// Whether this is the text with nine decimals, is read back, and with four decimals is the front of it.
fn has_text(nanos: i64, nine: &str) -> bool {
    if !Instant::is_in_years(nanos) {
        return false;
    }
    let instant = Instant::from_nanos(nanos);
    let text = instant.text(4);
    let four = text.as_str();
    instant.nanos() == nanos
        && instant.text(9).as_str() == nine
        && read_utc(nine.as_bytes()) == Ok(instant)
        && four.len() == 25
        && four.ends_with("Z")
        && four.as_bytes().get(..24) == nine.as_bytes().get(..24)
}

#[test]
fn an_instant_has_its_text(rt: HostRuntime) {
    for &(nanos, nine) in TEXTS.iter() {
        assert!(rt; has_text(nanos, nine), "{nine}");
    }
}

#[test]
fn one_decimal_is_enough_for_a_tenth(rt: HostRuntime) {
    let instant = Instant::from_nanos(-900_000_000);
    assert_eq!(rt; instant.text(1).as_str(), "2000-01-01T11:59:59.1Z");
}

#[test]
fn the_years_end_where_python_says(rt: HostRuntime) {
    assert!(rt; Instant::is_in_years(-1_356_955_200_000_000_000));
    assert!(rt; !Instant::is_in_years(-1_356_955_200_000_000_001));
    assert!(rt; Instant::is_in_years(1_798_804_799_999_999_999));
    assert!(rt; !Instant::is_in_years(1_798_804_800_000_000_000));
    assert!(rt; !Instant::is_in_years(i64::MIN));
    assert!(rt; !Instant::is_in_years(i64::MAX));
    assert!(rt; Instant::from_nanos(-1) < Instant::from_nanos(0));
}
