//! The lines of daylight.
use elements::{Instant, Window};
use pass_text::{END, PASSDAY, full_line, span_line, unresolved_line, window_line};
use sgp4_model::{Mark, Span};

#[test]
fn an_hour_of_daylight_is_printed(rt: HostRuntime) {
    // 2000-06-21T00:00:00Z, and one hour
    let window = Window::make(
        Instant::from_nanos(14_817_600_000_000_000),
        36_000_000,
        10_000,
    );
    let rows = [
        (
            window_line(window),
            "WINDOW 2000-06-21T00:00:00.0000Z 2000-06-21T01:00:00.0000Z 1\n",
        ),
        (
            span_line(
                window,
                Span {
                    from: 0,
                    to: 36_000_000,
                    mark: Mark::Yes,
                },
            ),
            "L 2000-06-21T00:00:00.0000Z 2000-06-21T01:00:00.0000Z\n",
        ),
        (
            span_line(
                window,
                Span {
                    from: 1,
                    to: 10_001,
                    mark: Mark::No,
                },
            ),
            "N 2000-06-21T00:00:00.0001Z 2000-06-21T00:00:01.0001Z\n",
        ),
        (
            span_line(
                window,
                Span {
                    from: 35_999_999,
                    to: 36_000_000,
                    mark: Mark::Undecided,
                },
            ),
            "U 2000-06-21T00:59:59.9999Z 2000-06-21T01:00:00.0000Z\n",
        ),
        (
            unresolved_line(window, 20, 10_021),
            "UNRESOLVED 2000-06-21T00:00:00.0020Z 2000-06-21T00:00:01.0021Z\n",
        ),
        (
            full_line(window, 600_000),
            "FULL 2000-06-21T00:01:00.0000Z\n",
        ),
    ];
    for (line, printed) in &rows {
        assert!(rt; line.bytes() == printed.as_bytes(), "{printed}");
    }
    assert!(rt; PASSDAY == b"PASSDAY 1\n".as_slice(), "the heading");
    assert!(rt; END == b"END\n".as_slice(), "the end");
}
