//! The lines of a plan.
ghost use Rattle.std.specs.Prelude.{◌≡◌, pos};

use elements::{Instant, Window};
use pass_text::window_line;
use plan_text::{
    Contact, PASSPLAN, lit_line, lit_span_line, offset_line, pair_line, pair_span_line, pass_line,
    sat_line, station_line, table_line,
};
use sgp4_shape::SatFault;
use span_bisect::{Mark, Span, SpanPool, TrackAnswer};
use std::test::Fail;

/// 2000-06-27T00:00:00Z, and one hour.
fn an_hour() -> Window
    ensures start { result.start ≡ pos 15336000000000000 }
    ensures ticks { result.ticks ≡ 36000000 }
{
    Window::make(
        Instant::from_nanos(15_336_000_000_000_000),
        36_000_000,
        10_000,
    )
}

#[test]
fn the_head_of_a_plan_is_printed(rt: HostRuntime) {
    assert!(rt; PASSPLAN == b"PASSPLAN 1\n".as_slice(), "the heading");
    let rows: [(i32, &[u8]); 5] = [
        (-334, b"DUT1 -334\n"),
        (900, b"DUT1 900\n"),
        (-900, b"DUT1 -900\n"),
        (-1, b"DUT1 -1\n"),
        (7, b"DUT1 7\n"),
    ];
    for (ms, printed) in &rows {
        assert!(rt; offset_line(*ms).bytes() == *printed, "{ms}");
    }
    assert!(rt;
        window_line(an_hour()).bytes()
            == b"WINDOW 2000-06-27T00:00:00.0000Z 2000-06-27T01:00:00.0000Z 1\n".as_slice(),
        "the window"
    );
}

#[test]
fn stations_are_printed_by_their_names(rt: HostRuntime) {
    let rows: [(u32, &[u8], &[u8]); 6] = [
        (1, b"Pole", b"STATION 1 Pole\n"),
        (2, b"Mount Stromlo", b"STATION 2 Mount Stromlo\n"),
        (64, b" ", b"STATION 64  \n"),
        (3, b"Troms\xc3\xb8", b"STATION 3 Troms??\n"),
        (4, b"a\tb\x7f~\x1f!", b"STATION 4 a?b?~?!\n"),
        (
            64,
            b"0123456789012345678901234567890123456789012345678901234567890123",
            b"STATION 64 0123456789012345678901234567890123456789012345678901234567890123\n",
        ),
    ];
    for (index, name, printed) in &rows {
        if name.len() <= 64 {
            let line = station_line(*index, name);
            assert!(rt; line.bytes() == *printed, "the printed line");
        } else {
            assert!(rt; false, "a name of at most 64 bytes");
        }
    }
}

#[test]
fn satellites_of_a_plan_have_their_fates(rt: HostRuntime) {
    let rows: [(Option<SatFault>, &[u8]); 8] = [
        (None, b"SAT 90001 OK ISS (ZARYA)\n"),
        (
            Some(SatFault::Eccentric),
            b"SAT 90001 ECCENTRIC ISS (ZARYA)\n",
        ),
        (
            Some(SatFault::Inclined),
            b"SAT 90001 INCLINED ISS (ZARYA)\n",
        ),
        (Some(SatFault::Drag), b"SAT 90001 DRAG ISS (ZARYA)\n"),
        (Some(SatFault::Deep), b"SAT 90001 DEEP ISS (ZARYA)\n"),
        (Some(SatFault::Low), b"SAT 90001 LOW ISS (ZARYA)\n"),
        (Some(SatFault::Edge), b"SAT 90001 EDGE ISS (ZARYA)\n"),
        (Some(SatFault::Far), b"SAT 90001 FAR ISS (ZARYA)\n"),
    ];
    for (fate, printed) in &rows {
        let line = sat_line(90001, *fate, b"ISS (ZARYA)");
        assert!(rt; line.bytes() == *printed, "{fate:?}");
    }
}

#[test]
fn rows_are_printed_with_their_answers(rt: HostRuntime) {
    let window = an_hour();
    let stretch = TrackAnswer::Unresolved {
        from: 1,
        to: 10_002,
    };
    let full = TrackAnswer::Full { at: 35_999_999 };
    let decays = TrackAnswer::Decays { at: 0 };
    let last = TrackAnswer::Decays { at: 36_000_000 };
    let rows = [
        (
            lit_line(window, 5, &stretch),
            "LIT 5 UNRESOLVED 2000-06-27T00:00:00.0001Z 2000-06-27T00:00:01.0002Z\n",
        ),
        (
            lit_line(window, 5, &full),
            "LIT 5 FULL 2000-06-27T00:59:59.9999Z\n",
        ),
        (
            lit_line(window, 90001, &decays),
            "LIT 90001 DECAYS 2000-06-27T00:00:00.0000Z\n",
        ),
        (
            pair_line(window, 5, 2, &stretch),
            "PAIR 5 2 UNRESOLVED 2000-06-27T00:00:00.0001Z 2000-06-27T00:00:01.0002Z\n",
        ),
        (
            pair_line(window, 5, 64, &full),
            "PAIR 5 64 FULL 2000-06-27T00:59:59.9999Z\n",
        ),
        (
            pair_line(window, 90001, 1, &last),
            "PAIR 90001 1 DECAYS 2000-06-27T01:00:00.0000Z\n",
        ),
    ];
    for (line, printed) in &rows {
        assert!(rt; line.bytes() == printed.as_bytes(), "{printed}");
    }
}

#[test]
fn rows_of_spans_are_printed_with_their_count(rt: HostRuntime) -> Result<(), Fail> {
    let window = an_hour();
    let mut pool = SpanPool::with_slots(rt.alloc(), 2)?;
    let mut track = pool.start();
    for (mark, from, to) in [(Mark::Yes, 0, 9), (Mark::No, 9, 36_000_000)] {
        assert!(rt; pool.push(&mut track, Span { mark, from, to }).is_ok());
    }
    let answer = TrackAnswer::Spans(track);
    assert!(rt; lit_line(window, 90001, &answer).bytes() == b"LIT 90001 SPANS 2\n".as_slice());
    assert!(rt;
        pair_line(window, 90001, 64, &answer).bytes() == b"PAIR 90001 64 SPANS 2\n".as_slice()
    );
    Ok(())
}

#[test]
fn spans_are_printed_with_the_letters_of_their_rows(rt: HostRuntime) {
    let window = an_hour();
    let rows = [
        (
            Mark::Yes,
            "S 2000-06-27T00:00:00.0007Z 2000-06-27T00:59:59.9999Z\n",
            "V 2000-06-27T00:00:00.0007Z 2000-06-27T00:59:59.9999Z\n",
        ),
        (
            Mark::No,
            "D 2000-06-27T00:00:00.0007Z 2000-06-27T00:59:59.9999Z\n",
            "H 2000-06-27T00:00:00.0007Z 2000-06-27T00:59:59.9999Z\n",
        ),
        (
            Mark::Undecided,
            "U 2000-06-27T00:00:00.0007Z 2000-06-27T00:59:59.9999Z\n",
            "U 2000-06-27T00:00:00.0007Z 2000-06-27T00:59:59.9999Z\n",
        ),
    ];
    for (mark, lit, pair) in &rows {
        let span = Span {
            mark: *mark,
            from: 7,
            to: 35_999_999,
        };
        assert!(rt;
            lit_span_line(window, span).bytes() == lit.as_bytes(),
            "{lit}"
        );
        assert!(rt;
            pair_span_line(window, span).bytes() == pair.as_bytes(),
            "{pair}"
        );
    }
}

#[test]
fn timetables_are_printed(rt: HostRuntime) {
    let window = an_hour();
    assert!(rt;
        table_line(1, 0).bytes() == b"TABLE 1 0\n".as_slice(),
        "an empty table"
    );
    assert!(rt;
        table_line(64, 1_048_576).bytes() == b"TABLE 64 1048576\n".as_slice(),
        "the last table"
    );
    let contact = Contact {
        from: 0,
        to: 36_000_000,
        number: 90001,
    };
    assert!(rt;
        pass_line(window, contact).bytes()
            == b"PASS 2000-06-27T00:00:00.0000Z 2000-06-27T01:00:00.0000Z 90001\n".as_slice(),
        "a pass"
    );
}

/// The lines of a plan that are the longest: a refused satellite's, and an unresolved pair's.
#[test]
fn the_longest_lines_of_a_plan_have_90_bytes(rt: HostRuntime) {
    let sat = sat_line(
        4_294_967_295,
        Some(SatFault::Eccentric),
        b"0123456789012345678901234567890123456789012345678901234567890123",
    );
    assert!(rt;
        sat.bytes()
            == b"SAT 4294967295 ECCENTRIC 0123456789012345678901234567890123456789012345678901234567890123\n".as_slice(),
        "the satellite"
    );
    assert_eq!(rt; sat.bytes().len(), 90, "its bytes");
    let answer = TrackAnswer::Unresolved {
        from: 0,
        to: 600_001,
    };
    let pair = pair_line(an_hour(), 4_294_967_295, 4_294_967_295, &answer);
    assert!(rt;
        pair.bytes()
            == b"PAIR 4294967295 4294967295 UNRESOLVED 2000-06-27T00:00:00.0000Z 2000-06-27T00:01:00.0001Z\n".as_slice(),
        "the pair"
    );
    assert_eq!(rt; pair.bytes().len(), 90, "its bytes");
}
