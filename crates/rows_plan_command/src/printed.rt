//! What is printed of a plan.
use crate::calls::{run_over, writes, writes_failing};
use crate::given::{
    DEEP, ECCENTRIC, EQUATOR, POLE, POLE_ACCENT, POLE_OFFSET, POLE_OFFSET_0, POLES, an_hour,
    an_hour_later,
};
use std::test::Fail;

/// The plan of a satellite that is refused, over the pole.
const DEEP_TEXT: &[u8] =
    b"PASSPLAN 1\nWINDOW 2000-06-27T00:00:00.0000Z 2000-06-27T01:00:00.0000Z 1\nSTATION 1 Pole\nSAT 90001 DEEP -\nTABLE 1 0\nEND\n";

#[test]
fn refused_satellites_are_listed_and_have_no_rows(rt: HostRuntime) -> Result<(), Fail> {
    writes(DEEP, POLE, an_hour(), DEEP_TEXT, 1, &rt)?;
    writes(
        ECCENTRIC,
        POLE,
        an_hour(),
        b"PASSPLAN 1\nWINDOW 2000-06-27T00:00:00.0000Z 2000-06-27T01:00:00.0000Z 1\nSTATION 1 Pole\nSAT 90001 ECCENTRIC -\nTABLE 1 0\nEND\n",
        1,
        &rt,
    )?;
    writes(
        EQUATOR,
        POLE,
        an_hour_later(),
        b"PASSPLAN 1\nWINDOW 2000-07-05T00:00:00.0000Z 2000-07-05T01:00:00.0000Z 1\nSTATION 1 Pole\nSAT 90001 FAR -\nTABLE 1 0\nEND\n",
        1,
        &rt,
    )?;
    Ok(())
}

#[test]
fn an_offset_has_a_line_where_it_is_not_0(rt: HostRuntime) -> Result<(), Fail> {
    writes(DEEP, POLE_OFFSET_0, an_hour(), DEEP_TEXT, 1, &rt)?;
    writes(
        DEEP,
        POLE_OFFSET,
        an_hour(),
        b"PASSPLAN 1\nWINDOW 2000-06-27T00:00:00.0000Z 2000-06-27T01:00:00.0000Z 1\nDUT1 -334\nSTATION 1 Pole\nSAT 90001 DEEP -\nTABLE 1 0\nEND\n",
        1,
        &rt,
    )?;
    Ok(())
}

#[test]
fn a_byte_of_a_name_that_is_not_printable_is_a_question_mark(rt: HostRuntime) -> Result<(), Fail> {
    writes(
        DEEP,
        POLE_ACCENT,
        an_hour(),
        b"PASSPLAN 1\nWINDOW 2000-06-27T00:00:00.0000Z 2000-06-27T01:00:00.0000Z 1\nSTATION 1 P??le\nSAT 90001 DEEP -\nTABLE 1 0\nEND\n",
        1,
        &rt,
    )?;
    Ok(())
}

#[test]
fn a_satellite_over_the_equator_is_seen_from_the_pole_through_the_earth_alone(
    rt: HostRuntime,
) -> Result<(), Fail> {
    let (out, _status) = run_over(rt.alloc(), EQUATOR, POLES, an_hour(), 0, 0)?;
    let head: &[u8] =
        b"PASSPLAN 1\nWINDOW 2000-06-27T00:00:00.0000Z 2000-06-27T01:00:00.0000Z 1\nSTATION 1 Pole\nSTATION 2 Open\nSAT 90001 OK -\nLIT 90001 ";
    let tail: &[u8] =
        b"\nPAIR 90001 1 SPANS 1\nH 2000-06-27T00:00:00.0000Z 2000-06-27T01:00:00.0000Z\nPAIR 90001 2 SPANS 1\nV 2000-06-27T00:00:00.0000Z 2000-06-27T01:00:00.0000Z\nTABLE 1 0\nTABLE 2 1\nPASS 2000-06-27T00:00:00.0000Z 2000-06-27T01:00:00.0000Z 90001\nEND\n";
    assert!(rt; out.written().starts_with(head), "the head");
    assert!(rt; out.written().ends_with(tail), "the tail");
    Ok(())
}

#[test]
fn each_line_is_one_put_and_half_of_the_failing_one_is_written(
    rt: HostRuntime,
) -> Result<(), Fail> {
    // The lines have 11, 61, 15, 17, 10 and 4 bytes.
    let rows: [(u64, usize); 6] = [(1, 5), (2, 41), (3, 79), (4, 95), (5, 109), (6, 116)];
    for (put, count) in &rows {
        let wanted = DEEP_TEXT.get(..*count).unwrap_or(&[]);
        writes_failing(DEEP, 0, *put, wanted, 8, &rt)?;
    }
    writes_failing(DEEP, 0, 7, DEEP_TEXT, 1, &rt)?;
    Ok(())
}
