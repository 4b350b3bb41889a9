//! The lines of a satellite's place at an instant.
use elements::Instant;
use pass_text::{DECAYED, PASSLOCATE, at_line, edge_line, missing_line};

#[test]
fn an_instant_has_nine_decimals(rt: HostRuntime) {
    let line = at_line(Instant::from_nanos(15_403_819_733_568_000));
    assert!(rt;
        line.bytes() == b"AT 2000-06-27T18:50:19.733568000Z\n".as_slice(),
        "the epoch of a published set"
    );
    let line = at_line(Instant::from_nanos(-1));
    assert!(rt;
        line.bytes() == b"AT 2000-01-01T11:59:59.999999999Z\n".as_slice(),
        "the nanosecond before the zero of the scale"
    );
}

#[test]
fn a_number_that_no_satellite_has_is_missing(rt: HostRuntime) {
    assert!(rt;
        missing_line(6).bytes() == b"MISSING 6\n".as_slice(),
        "a number"
    );
    assert!(rt;
        missing_line(0).bytes() == b"MISSING 0\n".as_slice(),
        "zero"
    );
}

#[test]
fn bounds_are_printed_with_their_signs(rt: HostRuntime) {
    let rows: [(&[u8], i64, i64, &[u8]); 5] = [
        (
            b"X",
            7_022_464_000,
            7_022_467_000,
            b"X 7022464000 7022467000\n",
        ),
        (
            b"Y",
            -1_400_084_001,
            -1_400_081_000,
            b"Y -1400084001 -1400081000\n",
        ),
        (b"Z", -12, 95, b"Z -12 95\n"),
        (b"Z", 0, 0, b"Z 0 0\n"),
        (
            b"Z",
            -9_223_372_036_854_775_808,
            9_223_372_036_854_775_807,
            b"Z -9223372036854775808 9223372036854775807\n",
        ),
    ];
    for (letter, low, high, printed) in &rows {
        if letter.len() <= 1 {
            let line = edge_line(letter, *low, *high);
            assert!(rt; line.bytes() == *printed, "the printed line");
        } else {
            assert!(rt; false, "one letter");
        }
    }
}

#[test]
fn a_place_has_fixed_lines(rt: HostRuntime) {
    assert!(rt; PASSLOCATE == b"PASSLOCATE 1\n".as_slice(), "the heading");
    assert!(rt; DECAYED == b"DECAYED\n".as_slice(), "no bounds");
}
