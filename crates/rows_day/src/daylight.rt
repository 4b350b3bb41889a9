use crate::calls::{run_line, writes};
use outside_io::MemorySink;
use sgp4_model::{Mark, Span};
use std::test::Fail;
use top_call::{DayResult, Outcome, Product};

/// An hour in ticks.
const HOUR: u64 = 36_000_000;

#[test]
fn the_daylight_of_a_place_is_printed(rt: HostRuntime) -> Result<(), Fail> {
    // At the poles the Sun is up for the half of the year; at the meridian of Greenwich it is noon; on Spitsbergen the
    // Sun does not set in June, and does not rise in December.
    writes(
        "day --lat=90 --lon=0 --start=2000-06-21T00:00:00Z --end=2000-06-21T01:00:00Z --res=1",
        b"PASSDAY 1\nWINDOW 2000-06-21T00:00:00.0000Z 2000-06-21T01:00:00.0000Z 1\nL 2000-06-21T00:00:00.0000Z 2000-06-21T01:00:00.0000Z\nEND\n",
        0,
        &rt,
    )?;
    writes(
        "day --lat=-90 --lon=0 --start=2000-06-21T00:00:00Z --end=2000-06-21T01:00:00Z --res=1",
        b"PASSDAY 1\nWINDOW 2000-06-21T00:00:00.0000Z 2000-06-21T01:00:00.0000Z 1\nN 2000-06-21T00:00:00.0000Z 2000-06-21T01:00:00.0000Z\nEND\n",
        0,
        &rt,
    )?;
    writes(
        "day --lat 0 --lon 0 --start 2000-01-01T12:00:00Z --end 2000-01-01T13:00:00Z --res 1",
        b"PASSDAY 1\nWINDOW 2000-01-01T12:00:00.0000Z 2000-01-01T13:00:00.0000Z 1\nL 2000-01-01T12:00:00.0000Z 2000-01-01T13:00:00.0000Z\nEND\n",
        0,
        &rt,
    )?;
    writes(
        "day --lat 0 --lon 180 --start 2000-001T12:00:00 --end 2000-01-01T12:00:00.0001Z --res 05",
        b"PASSDAY 1\nWINDOW 2000-01-01T12:00:00.0000Z 2000-01-01T12:00:00.0001Z 5\nN 2000-01-01T12:00:00.0000Z 2000-01-01T12:00:00.0001Z\nEND\n",
        0,
        &rt,
    )?;
    writes(
        "day --res=60 --lat=78 --lon=15 --start=2000-06-21T00:00:00Z --end=2000-07-01T00:00:00Z",
        b"PASSDAY 1\nWINDOW 2000-06-21T00:00:00.0000Z 2000-07-01T00:00:00.0000Z 60\nL 2000-06-21T00:00:00.0000Z 2000-07-01T00:00:00.0000Z\nEND\n",
        0,
        &rt,
    )?;
    writes(
        "day --lat=78 --lon=15 --start=2000-12-15T00:00:00Z --end=2000-12-25T00:00:00Z --res=1",
        b"PASSDAY 1\nWINDOW 2000-12-15T00:00:00.0000Z 2000-12-25T00:00:00.0000Z 1\nN 2000-12-15T00:00:00.0000Z 2000-12-25T00:00:00.0000Z\nEND\n",
        0,
        &rt,
    )?;
    Ok(())
}

/// Whether a span is one of ten days in which the Sun rises and sets each day: night of 3 to 9 hours (the window cuts the
/// first and the last), or light of 15 to 17, or undecided for a few ticks.
fn is_likely(place: u32, span: Span) -> bool {
    let ticks = span.to.saturating_sub(span.from);
    match place % 4 {
        0 => span.mark == Mark::No && ticks > 3 * HOUR && ticks < 9 * HOUR,
        2 => span.mark == Mark::Yes && ticks > 15 * HOUR && ticks < 17 * HOUR,
        _ => span.mark == Mark::Undecided && ticks > 0 && ticks < 10,
    }
}

/// The number of spans that lead from the start of the window to its end, one after the other, if they do and each is likely.
fn likely_spans(day: &DayResult, ticks: u64) -> Option<u32> {
    let mut at = 0;
    for place in 0..1000 {
        match day.span(place) {
            Some(span) => {
                if span.from != at || !is_likely(place, span) {
                    return None;
                }
                at = span.to;
            }
            None => return if at == ticks { Some(place) } else { None },
        }
    }
    None
}

/// The number of spans of a product of ten days, if they are likely.
fn likely_spans_of(product: &Product) -> Option<u32> {
    match product {
        Product::Day(day) => likely_spans(day, 240 * HOUR),
        Product::Plan(_) => None,
        Product::Shown(_) => None,
        Product::Located(_) => None,
        Product::Counted(_) => None,
        Product::Booked(_) => None,
    }
}

#[test]
fn light_and_night_alternate_through_ten_days(rt: HostRuntime) -> Result<(), Fail> {
    // At Munich the Sun rises at about 3:20 and sets at about 19:12. Ten sunrises and ten sunsets part 21 spans.
    let line =
        b"day --lat=48.1 --lon=11.3 --start=2000-06-21T00:00:00Z --end=2000-07-01T00:00:00Z --res=1";
    let mut out = MemorySink::make(rt.alloc(), 4000)?;
    let outcome = run_line(rt.alloc(), line, &mut out)?;
    let spans = match &outcome {
        Outcome::Done { product } => likely_spans_of(product),
        _ => None,
    };
    assert_eq!(rt; spans, Some(41));
    Ok(())
}
