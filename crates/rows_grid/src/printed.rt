//! What is printed of the counts.
use crate::calls::run_of;
use std::test::Fail;

/// The lines of one satellite before the number of verdicts.
const HEAD: &[u8] =
    b"PASSGRID 1\nSATS 1\nREFUSED 0\nVISIBLE 0 0\nHIDDEN 2 72000000\nUNDECIDED 0 0\nUNRESOLVED 0\nFULL 0\nDECAYS 0\nCELLS ";

#[test]
fn one_satellite_is_hidden_from_both_stations(rt: HostRuntime) -> Result<(), Fail> {
    let (out, status) = run_of(rt.alloc(), 1, 0)?;
    let written = out.written();
    assert!(rt; written.starts_with(HEAD), "the counts");
    assert!(rt; written.ends_with(b"\nEND\n"), "the end");
    assert!(rt; written.len() > HEAD.len() + 5, "a number of verdicts");
    let digits = written.len() - (HEAD.len() + 5);
    assert!(rt; digits < 20, "fewer than 20 digits");
    for byte in written.get(HEAD.len()..HEAD.len() + digits).unwrap_or(b"") {
        assert!(rt; byte.is_ascii_digit(), "a digit of the verdicts");
    }
    assert_eq!(rt; status, 0);
    Ok(())
}

#[test]
fn two_runs_write_the_same(rt: HostRuntime) -> Result<(), Fail> {
    let (first, first_status) = run_of(rt.alloc(), 3, 0)?;
    let (second, second_status) = run_of(rt.alloc(), 3, 0)?;
    assert!(rt;
        first
            .written()
            .starts_with(b"PASSGRID 1\nSATS 3\nREFUSED 0\n"),
        "the satellites"
    );
    assert_eq!(rt; first.written(), second.written());
    assert_eq!(rt; first_status, second_status);
    Ok(())
}

#[test]
fn each_line_is_one_put_and_half_of_the_failing_one_is_written(
    rt: HostRuntime,
) -> Result<(), Fail> {
    // The lines before the verdicts have 11, 7, 10, 12, 18, 14, 13, 7 and 9 bytes.
    let rows: [(u64, usize); 9] = [
        (1, 5),
        (2, 14),
        (3, 23),
        (4, 34),
        (5, 49),
        (6, 65),
        (7, 78),
        (8, 88),
        (9, 96),
    ];
    for (put, count) in &rows {
        let (out, status) = run_of(rt.alloc(), 1, *put)?;
        assert_eq!(rt;
            out.written(),
            HEAD.get(..*count).unwrap_or(&[]),
            "put {put}"
        );
        assert_eq!(rt; status, 8, "put {put}");
    }
    let (whole, _status) = run_of(rt.alloc(), 1, 12)?;
    let (verdicts, verdicts_status) = run_of(rt.alloc(), 1, 10)?;
    let (last, last_status) = run_of(rt.alloc(), 1, 11)?;
    let text = whole.written();
    assert!(rt; text.len() > 105, "a number of verdicts");
    let half = (text.len() - 105) / 2;
    assert_eq!(rt; verdicts.written(), text.get(..101 + half).unwrap_or(&[]));
    assert_eq!(rt; last.written(), text.get(..text.len() - 2).unwrap_or(&[]));
    assert_eq!(rt; verdicts_status, 8);
    assert_eq!(rt; last_status, 8);
    Ok(())
}
