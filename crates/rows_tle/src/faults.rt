use crate::lines::{STATION1, STATION2, VANGUARD1, VANGUARD2, with};
use std::process::Abort;
use tle_read::{TleFault, read_pair};

fn of_length(line: u8, found: u32) -> Option<TleFault> {
    Some(TleFault::Length { line, found })
}

fn of_check(line: u8, found: u8, wanted: u8) -> Option<TleFault> {
    Some(TleFault::Check {
        line,
        found,
        wanted,
    })
}

fn of_column(line: u8, first: u8) -> Option<TleFault> {
    Some(TleFault::Column { line, first })
}

fn of_range(line: u8, first: u8) -> Option<TleFault> {
    Some(TleFault::Range { line, first })
}

/// The two lines have this first fault, or none.
fn pair(about: &str, line1: &[u8], line2: &[u8], fault: Option<TleFault>, rt: &impl Abort) {
    assert!(rt; line1.len() < 100 && line2.len() < 100, "{about}");
    assert_eq!(rt; read_pair(line1, line2).err(), fault, "{about}");
}

#[test]
fn the_first_fault_is_answered(rt: HostRuntime) {
    let changed = with(STATION1, 25, b"51782529", b'7');
    let short1 = &STATION1[..68];
    let short2 = &STATION2[..5];
    pair("the set", STATION1, STATION2, None, &rt);
    pair(
        "a changed digit",
        &changed,
        STATION2,
        of_check(1, 7, 8),
        &rt,
    );
    pair("no last byte", short1, STATION2, of_length(1, 68), &rt);
    pair("five bytes", STATION1, short2, of_length(2, 5), &rt);
    pair("both too short", short1, short2, of_length(1, 68), &rt);
    pair("blanks", b" \t\r", STATION2, of_length(1, 0), &rt);
    pair("nothing", b"", STATION2, of_length(1, 0), &rt);
    pair(
        "other elements",
        STATION1,
        VANGUARD2,
        Some(TleFault::NumbersDiffer),
        &rt,
    );
    pair(
        "exchanged",
        STATION2,
        STATION1,
        Some(TleFault::LineNumber { line: 1 }),
        &rt,
    );
    pair(
        "twice the first",
        STATION1,
        STATION1,
        Some(TleFault::LineNumber { line: 2 }),
        &rt,
    );
}

#[test]
fn blanks_at_the_end_do_not_count(rt: HostRuntime) {
    let line1 = b"1 25544U 98067A   08264.51782528 -.00002182  00000-0 -11606-4 0  2927 \t\r \r";
    let line2 = b"2 25544  51.6416 247.4627 0006703 130.5360 325.0288 15.72125391563537\r";
    pair("blanks at both ends", line1, line2, None, &rt);
    let line1 = b"1 25544U 98067A   08264.51782528 -.00002182  00000-0 -11606-4 0  2927 x";
    pair("two bytes more", line1, STATION2, of_length(1, 71), &rt);
    let line1 = b" 1 25544U 98067A   08264.51782528 -.00002182  00000-0 -11606-4 0  2927";
    pair("a blank in front", line1, STATION2, of_length(1, 70), &rt);
}

#[test]
fn check_digits_come_before_columns_and_line_1_before_line_2(rt: HostRuntime) {
    // Each line with a wrong last digit, with a field that is not of its form, and with both.
    let check1 = with(VANGUARD1, 69, b"4", b'4');
    let check2 = with(VANGUARD2, 69, b"8", b'8');
    let column1 = with(VANGUARD1, 64, b"x", b'3');
    let column2 = with(VANGUARD2, 2, b"x", b'7');
    let both1 = with(VANGUARD1, 2, b"x", b'0');
    let no_digit1 = with(VANGUARD1, 69, b"x", b'x');
    let no_digit2 = with(VANGUARD2, 69, b" ", b'-');
    pair("two digits", &check1, &check2, of_check(1, 4, 3), &rt);
    pair("a digit", VANGUARD1, &check2, of_check(2, 8, 7), &rt);
    pair(
        "a column and a digit",
        &column1,
        &check2,
        of_check(2, 8, 7),
        &rt,
    );
    pair("both in a line", &both1, VANGUARD2, of_check(1, 0, 3), &rt);
    pair("two columns", &column1, &column2, of_column(1, 64), &rt);
    pair("a column", VANGUARD1, &column2, of_column(2, 2), &rt);
    pair(
        "no digit and a digit",
        &no_digit1,
        &check2,
        of_check(2, 8, 7),
        &rt,
    );
    pair(
        "no digit and a column",
        &no_digit1,
        &column2,
        of_column(1, 69),
        &rt,
    );
    pair("no digit", VANGUARD1, &no_digit2, of_column(2, 69), &rt);
}

#[test]
fn columns_come_before_numbers_theories_and_ranges(rt: HostRuntime) {
    let column2 = with(VANGUARD2, 2, b"x", b'7');
    let range1 = with(VANGUARD1, 19, b"00000.99999999", b'7');
    let theory_range1 = with(&range1, 63, b"4", b'1');
    let other1 = with(&theory_range1, 3, b"00006", b'2');
    let range2 = with(VANGUARD2, 9, b"180.0001", b'2');
    pair("a column", &range1, &column2, of_column(2, 2), &rt);
    pair(
        "a column of another",
        &other1,
        &column2,
        of_column(2, 2),
        &rt,
    );
    pair(
        "numbers",
        &other1,
        &range2,
        Some(TleFault::NumbersDiffer),
        &rt,
    );
    pair(
        "a theory",
        &theory_range1,
        &range2,
        Some(TleFault::Theory),
        &rt,
    );
    pair("two ranges", &range1, &range2, of_range(1, 21), &rt);
    pair("a range", VANGUARD1, &range2, of_range(2, 9), &rt);
    pair("the set", VANGUARD1, VANGUARD2, None, &rt);
}

/// Line 1 with a text from this column on, and this check digit, has this fault, or none.
fn line1(at: usize, text: &str, last: u8, fault: Option<TleFault>, rt: &impl Abort) {
    let line = with(VANGUARD1, at, text.as_bytes(), last);
    pair(text, &line, VANGUARD2, fault, rt);
}

/// The same of line 2.
fn line2(at: usize, text: &str, last: u8, fault: Option<TleFault>, rt: &impl Abort) {
    let line = with(VANGUARD2, at, text.as_bytes(), last);
    pair(text, VANGUARD1, &line, fault, rt);
}

/// Line 1 with a text from this column on, and this check digit, has its first fault at this column.
fn column1(at: usize, text: &str, last: u8, first: u8, rt: &impl Abort) {
    line1(at, text, last, of_column(1, first), rt);
}

/// The same of line 2.
fn column2(at: usize, text: &str, last: u8, first: u8, rt: &impl Abort) {
    line2(at, text, last, of_column(2, first), rt);
}

#[test]
fn each_column_of_line_1_has_its_form(rt: HostRuntime) {
    column1(2, "x", b'3', 2, &rt);
    column1(3, "     ", b'8', 3, &rt);
    column1(3, "0 005", b'3', 3, &rt);
    column1(3, "I0005", b'3', 3, &rt);
    column1(3, "O0005", b'3', 3, &rt);
    column1(3, "a0005", b'3', 3, &rt);
    column1(3, "A 005", b'3', 3, &rt);
    column1(3, " A005", b'3', 3, &rt);
    column1(9, "x", b'3', 9, &rt);
    column1(18, "x", b'3', 18, &rt);
    column1(19, "8 ", b'1', 19, &rt);
    column1(19, "  ", b'3', 19, &rt);
    column1(19, "00.           ", b'5', 21, &rt);
    column1(19, "00  1 2       ", b'8', 21, &rt);
    column1(19, "001.2.3       ", b'1', 21, &rt);
    column1(19, "00+1.0        ", b'6', 21, &rt);
    column1(19, "00            ", b'5', 21, &rt);
    column1(33, "x", b'3', 33, &rt);
    column1(44, "x", b'3', 44, &rt);
    column1(53, "x", b'3', 53, &rt);
    column1(54, "*28098-4", b'3', 54, &rt);
    column1(54, " 2809 -4", b'5', 54, &rt);
    column1(54, " 28098/4", b'2', 54, &rt);
    column1(54, " 28098-x", b'9', 54, &rt);
    column1(62, "x", b'3', 62, &rt);
    column1(63, "x", b'3', 63, &rt);
    column1(64, "x", b'3', 64, &rt);
    column1(69, "x", b'x', 69, &rt);
    column1(69, " ", b'/', 69, &rt);
    column1(69, ":", b':', 69, &rt);
}

#[test]
fn each_column_of_line_2_has_its_form(rt: HostRuntime) {
    column2(2, "x", b'7', 2, &rt);
    column2(8, "x", b'7', 8, &rt);
    column2(8, "-", b'8', 8, &rt);
    column2(9, "  -1.000", b'4', 9, &rt);
    column2(9, "        ", b'2', 9, &rt);
    column2(17, "x", b'7', 17, &rt);
    column2(26, "x", b'7', 26, &rt);
    column2(27, "12 3456", b'6', 27, &rt);
    column2(34, "x", b'7', 34, &rt);
    column2(43, "x", b'7', 43, &rt);
    column2(52, "x", b'7', 52, &rt);
    column2(69, "x", b'x', 69, &rt);
    column2(69, "\0", 0, 69, &rt);
}

#[test]
fn days_end_at_their_ranges(rt: HostRuntime) {
    line1(19, "01366.50000000", b'6', of_range(1, 21), &rt);
    line1(19, "00366.50000000", b'5', None, &rt);
    line1(19, "00366.99999999", b'2', None, &rt);
    line1(19, "00367.00000000", b'1', of_range(1, 21), &rt);
    line1(19, "01365.99999999", b'2', None, &rt);
    line1(19, "01366.00000000", b'1', of_range(1, 21), &rt);
    line1(19, "00001.00000000", b'6', None, &rt);
    line1(19, "00000.99999999", b'7', of_range(1, 21), &rt);
    line1(19, "00.99999999999", b'4', of_range(1, 21), &rt);
    line1(19, "00           1", b'6', None, &rt);
}

#[test]
fn values_end_at_their_ranges(rt: HostRuntime) {
    line2(9, "180.0000", b'1', None, &rt);
    line2(9, "180.0001", b'2', of_range(2, 9), &rt);
    line2(18, "360.0000", b'6', None, &rt);
    line2(18, "360.0001", b'7', of_range(2, 18), &rt);
    line2(35, "360.0000", b'6', None, &rt);
    line2(35, "360.0001", b'7', of_range(2, 35), &rt);
    line2(44, "360.0000", b'1', None, &rt);
    line2(44, "360.0001", b'2', of_range(2, 44), &rt);
    line2(53, " 0.00000000", b'9', of_range(2, 53), &rt);
    line2(53, ".0000000001", b'0', None, &rt);
    line2(53, "99999999999", b'8', None, &rt);
}

#[test]
fn the_lowest_value_out_of_its_range_is_the_first_fault(rt: HostRuntime) {
    // The columns 9 to 63 with the values from one on out of their ranges.
    line2(
        9,
        "180.0001 360.0001 1859667 360.0001 360.0001  0.00000000",
        b'9',
        of_range(2, 9),
        &rt,
    );
    line2(
        9,
        " 34.2682 360.0001 1859667 360.0001 360.0001  0.00000000",
        b'4',
        of_range(2, 18),
        &rt,
    );
    line2(
        9,
        " 34.2682 348.7242 1859667 360.0001 360.0001  0.00000000",
        b'4',
        of_range(2, 35),
        &rt,
    );
    line2(
        9,
        " 34.2682 348.7242 1859667 331.7664 360.0001  0.00000000",
        b'4',
        of_range(2, 44),
        &rt,
    );
}

#[test]
fn ephemeris_types_other_than_0_and_2_are_not_read(rt: HostRuntime) {
    line1(63, "4", b'7', Some(TleFault::Theory), &rt);
    line1(63, "1", b'4', Some(TleFault::Theory), &rt);
    line1(63, "3", b'6', Some(TleFault::Theory), &rt);
    line1(63, "9", b'2', Some(TleFault::Theory), &rt);
    line1(63, "2", b'5', None, &rt);
    line1(63, " ", b'3', None, &rt);
    line1(63, "0", b'3', None, &rt);
}
