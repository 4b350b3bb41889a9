//! Each day of the years 1957 to 2056, counted from the first one: every fourth of these years is a leap year.
use civil_time::{Instant, TimeFault, days_in_year, read_utc};

/// The tens digit of a number.
fn tens(number: u16) -> u8 {
    b'0' + (number / 10 % 10) as u8
}

/// The last digit of a number.
fn ones(number: u16) -> u8 {
    b'0' + (number % 10) as u8
}

/// When a date begins, by month and day, as the program prints a tick.
fn by_month(year: u16, month: u16, day: u16) -> [u8; 25] {
    let mut text = *b"yyyy-mm-ddT00:00:00.0000Z";
    text[0] = tens(year / 100);
    text[1] = ones(year / 100);
    text[2] = tens(year);
    text[3] = ones(year);
    text[5] = tens(month);
    text[6] = ones(month);
    text[8] = tens(day);
    text[9] = ones(day);
    text
}

/// The same by the place of the day in the year.
fn by_place(year: u16, place: u16) -> [u8; 17] {
    let mut text = *b"yyyy-dddT00:00:00";
    text[0] = tens(year / 100);
    text[1] = ones(year / 100);
    text[2] = tens(year);
    text[3] = ones(year);
    text[5] = ones(place / 100);
    text[6] = tens(place);
    text[7] = ones(place);
    text
}

/// How many days a month has.
fn days_of(year: u16, month: u16) -> u16 {
    match month {
        2 => { if year % 4 == 0 { 29 } else { 28 } }
        4 | 6 | 9 | 11 => 30,
        _ => 31,
    }
}

/// The nanoseconds from 2000-01-01T12:00:00 to the beginning of a day, by its number from 1970-01-01.
fn beginning(day: i64) -> i64 {
    day.wrapping_mul(86_400_000_000_000)
        .wrapping_sub(946_728_000_000_000_000)
}

/// Whether the day with this number is read from both forms of its date, and written as its date.
fn is_day(year: u16, month: u16, day: u16, place: u16, number: i64) -> bool {
    let date = by_month(year, month, day);
    match (read_utc(&date), read_utc(&by_place(year, place))) {
        (Ok(instant), Ok(same)) => {
            instant.nanos() == beginning(number)
                && same == instant
                && instant.text(4).as_str().as_bytes() == date.as_slice()
        }
        _ => false,
    }
}

/// Whether a text writes no day.
fn is_no_day(text: &[u8]) -> bool {
    read_utc(text) == Err(TimeFault::NotADay)
}

/// Whether a year of so many days begins on the day with this number.
fn is_year(year: u16, days: u16, number: i64) -> bool {
    1957 <= year
        && year <= 2056
        && days_in_year(year) == days
        && Instant::of_year_day(year, 0).nanos() == beginning(number)
        && Instant::of_year_day(year, 31_535_999_999_999_999).nanos()
            == beginning(number.wrapping_add(365)).wrapping_sub(1)
}

/// The number of the first day of a few years, as Python's `datetime` has it, and else the number that was counted.
fn by_python(year: u16, counted: i64) -> i64 {
    match year {
        1957 => -4748,
        1970 => 0,
        1999 => 10_592,
        2000 => 10_957,
        2001 => 11_323,
        2028 => 21_184,
        2056 => 31_411,
        _ => counted,
    }
}

#[test]
fn each_day_has_its_number(rt: HostRuntime) {
    let mut number = -4748i64;
    for year in 1957..2057u16 {
        let first = number;
        assert_eq!(rt; first, by_python(year, first), "the year {year}");
        let mut place = 0u16;
        for month in 1..13u16 {
            let last = days_of(year, month);
            for count in 0..last {
                let day = count.wrapping_add(1);
                place = place.wrapping_add(1);
                assert!(rt;
                    is_day(year, month, day, place, number),
                    "{year} {month} {day}"
                );
                number = number.wrapping_add(1);
            }
            assert!(rt;
                is_no_day(&by_month(year, month, last.wrapping_add(1))),
                "{year} {month}"
            );
        }
        assert!(rt; is_year(year, place, first), "the year {year}");
        assert!(rt;
            is_no_day(&by_place(year, place.wrapping_add(1))),
            "the year {year}"
        );
    }
    assert_eq!(rt; number, 31_777, "the day after the last");
}
