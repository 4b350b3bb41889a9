//! What is printed of a station with one contact, or none.
use crate::calls::{are_certified, run_over, writes};
use crate::given::{DEEP, EQUATOR, POLE, POLE_OFFSET, POLE_OPEN, POLES};
use std::test::Fail;

/// What is booked of a satellite that is refused.
const DEEP_TEXT: &[u8] =
    b"PASSBOOK 1\nWINDOW 2000-06-27T00:00:00.0000Z 2000-06-27T01:00:00.0000Z 1\nSTATION 1 Pole\nSAT 90001 DEEP -\nBOOK 1 0 0\nEND\n";

// One contact fills the one stretch, so every price up to its value certifies it, and no PRICE line is given in advance.
#[test]
fn book_the_open_mask_pass(rt: HostRuntime) -> Result<(), Fail> {
    let (out, ending) = run_over(rt.alloc(), EQUATOR, POLE_OPEN, 1, 0, 0)?;
    let front: &[u8] =
        b"PASSBOOK 1\nWINDOW 2000-06-27T00:00:00.0000Z 2000-06-27T01:00:00.0000Z 1\nSTATION 1 Pole\nSAT 90001 OK -\nBOOK 1 1 36000000\nUSE 2000-06-27T00:00:00.0000Z 2000-06-27T01:00:00.0000Z 90001 1\n";
    assert!(rt; out.written().starts_with(front), "the front");
    assert!(rt; out.written().ends_with(b"\nEND\n"), "the end");
    assert!(rt;
        are_certified(rt.alloc(), &ending, 1, 1)?,
        "the certificate"
    );
    Ok(())
}

#[test]
fn without_contacts_nothing_is_booked(rt: HostRuntime) -> Result<(), Fail> {
    let (out, ending) = run_over(rt.alloc(), EQUATOR, POLE, 64, 0, 0)?;
    let wanted: &[u8] =
        b"PASSBOOK 1\nWINDOW 2000-06-27T00:00:00.0000Z 2000-06-27T01:00:00.0000Z 1\nSTATION 1 Pole\nSAT 90001 OK -\nBOOK 1 0 0\nEND\n";
    assert_eq!(rt; out.written(), wanted);
    assert!(rt;
        are_certified(rt.alloc(), &ending, 64, 1)?,
        "the certificate"
    );
    Ok(())
}

#[test]
fn each_station_is_booked_in_order(rt: HostRuntime) -> Result<(), Fail> {
    let (out, ending) = run_over(rt.alloc(), EQUATOR, POLES, 1, 0, 0)?;
    let front: &[u8] =
        b"PASSBOOK 1\nWINDOW 2000-06-27T00:00:00.0000Z 2000-06-27T01:00:00.0000Z 1\nSTATION 1 Pole\nSTATION 2 Open\nSAT 90001 OK -\nBOOK 1 0 0\nBOOK 2 1 36000000\nUSE 2000-06-27T00:00:00.0000Z 2000-06-27T01:00:00.0000Z 90001 1\n";
    assert!(rt; out.written().starts_with(front), "the front");
    assert!(rt;
        are_certified(rt.alloc(), &ending, 1, 2)?,
        "the certificate"
    );
    Ok(())
}

#[test]
fn a_refused_satellite_is_listed_and_the_offset_has_a_line(rt: HostRuntime) -> Result<(), Fail> {
    writes(DEEP, POLE, 0, 0, DEEP_TEXT, 1, &rt)?;
    writes(
        DEEP,
        POLE_OFFSET,
        0,
        0,
        b"PASSBOOK 1\nWINDOW 2000-06-27T00:00:00.0000Z 2000-06-27T01:00:00.0000Z 1\nDUT1 -334\nSTATION 1 Pole\nSAT 90001 DEEP -\nBOOK 1 0 0\nEND\n",
        1,
        &rt,
    )?;
    Ok(())
}

#[test]
fn each_line_is_one_put_and_half_of_the_failing_one_is_written(
    rt: HostRuntime,
) -> Result<(), Fail> {
    // The lines have 11, 61, 15, 17, 11 and 4 bytes.
    let rows: [(u64, usize); 6] = [(1, 5), (2, 41), (3, 79), (4, 95), (5, 109), (6, 117)];
    for (put, count) in &rows {
        let wanted = DEEP_TEXT.get(..*count).unwrap_or(&[]);
        writes(DEEP, POLE, 0, *put, wanted, 8, &rt)?;
    }
    writes(DEEP, POLE, 0, 7, DEEP_TEXT, 1, &rt)?;
    Ok(())
}
