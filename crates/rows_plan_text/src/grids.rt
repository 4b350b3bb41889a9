//! The lines of a summary.
use plan_text::{PASSGRID, Summary, count_line, spans_line};

/// What one satellite above the equator gives in an hour: it is hidden from both stations.
#[test]
fn the_counts_of_an_hour_are_printed(rt: HostRuntime) {
    let summary = Summary {
        sats: 1,
        refused: 0,
        visible_spans: 0,
        visible_ticks: 0,
        hidden_spans: 2,
        hidden_ticks: 72_000_000,
        undecided_spans: 0,
        undecided_ticks: 0,
        unresolved: 0,
        full: 0,
        decays: 0,
        cells: 6,
    };
    assert!(rt; PASSGRID == b"PASSGRID 1\n".as_slice(), "the heading");
    let rows = [
        (count_line(b"SATS", summary.sats), "SATS 1\n"),
        (count_line(b"REFUSED", summary.refused), "REFUSED 0\n"),
        (
            spans_line(b"VISIBLE", summary.visible_spans, summary.visible_ticks),
            "VISIBLE 0 0\n",
        ),
        (
            spans_line(b"HIDDEN", summary.hidden_spans, summary.hidden_ticks),
            "HIDDEN 2 72000000\n",
        ),
        (
            spans_line(
                b"UNDECIDED",
                summary.undecided_spans,
                summary.undecided_ticks,
            ),
            "UNDECIDED 0 0\n",
        ),
        (
            count_line(b"UNRESOLVED", summary.unresolved),
            "UNRESOLVED 0\n",
        ),
        (count_line(b"FULL", summary.full), "FULL 0\n"),
        (count_line(b"DECAYS", summary.decays), "DECAYS 0\n"),
        (count_line(b"CELLS", summary.cells), "CELLS 6\n"),
    ];
    for (line, printed) in &rows {
        assert!(rt; line.bytes() == printed.as_bytes(), "{printed}");
    }
}

#[test]
fn the_longest_line_of_a_summary_has_52_bytes(rt: HostRuntime) {
    let line = spans_line(
        b"UNDECIDED",
        18_446_744_073_709_551_615,
        18_446_744_073_709_551_615,
    );
    assert!(rt;
        line.bytes() == b"UNDECIDED 18446744073709551615 18446744073709551615\n".as_slice(),
        "the printed line"
    );
    assert_eq!(rt; line.bytes().len(), 52, "its bytes");
}
