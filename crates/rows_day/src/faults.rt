use crate::calls::{expect, written_by};
use std::alloc::AllocError;
use std::process::Abort;
use std::test::Fail;

/// The words of an hour of daylight at the pole.
const LINE: &str =
    "day --lat=90 --lon=0 --start=2000-06-21T00:00:00Z --end=2000-06-21T01:00:00Z --res=1";

/// The words of a line write this into an output with this room, whose put of this number fails, and end with this status.
fn writes(
    line: &str,
    room: u64,
    failing: u64,
    wanted: &[u8],
    wanted_status: u8,
    rt: &(impl Abort + AllocGlobal),
) -> Result<(), AllocError> {
    let (out, found) = written_by(rt.alloc(), line.as_bytes(), room, failing)?;
    expect(&out, wanted, found, wanted_status, line, rt);
    Ok(())
}

#[test]
fn each_line_is_one_put_and_half_of_the_failing_one_is_written(
    rt: HostRuntime,
) -> Result<(), Fail> {
    writes(LINE, 1000, 1, b"PASSD", 8, &rt)?;
    writes(
        LINE,
        1000,
        2,
        b"PASSDAY 1\nWINDOW 2000-06-21T00:00:00.000",
        8,
        &rt,
    )?;
    writes(
        LINE,
        1000,
        3,
        b"PASSDAY 1\nWINDOW 2000-06-21T00:00:00.0000Z 2000-06-21T01:00:00.0000Z 1\nL 2000-06-21T00:00:00.0000Z",
        8,
        &rt,
    )?;
    writes(
        LINE,
        1000,
        4,
        b"PASSDAY 1\nWINDOW 2000-06-21T00:00:00.0000Z 2000-06-21T01:00:00.0000Z 1\nL 2000-06-21T00:00:00.0000Z 2000-06-21T01:00:00.0000Z\nEN",
        8,
        &rt,
    )?;
    writes(
        LINE,
        129,
        5,
        b"PASSDAY 1\nWINDOW 2000-06-21T00:00:00.0000Z 2000-06-21T01:00:00.0000Z 1\nL 2000-06-21T00:00:00.0000Z 2000-06-21T01:00:00.0000Z\nEND\n",
        0,
        &rt,
    )?;
    writes(LINE, 5, 0, b"PASSD", 8, &rt)?;
    writes(LINE, 0, 0, b"", 8, &rt)?;
    Ok(())
}

#[test]
fn a_refusal_is_one_put(rt: HostRuntime) -> Result<(), Fail> {
    writes("x", 1000, 1, b"error usag", 2, &rt)?;
    writes("x", 3, 0, b"err", 2, &rt)?;
    writes("x", 20, 2, b"error usage command\n", 2, &rt)?;
    writes(
        "day --lat=1 --lon=1 --start=x --end=x --res=1",
        1000,
        1,
        b"error win",
        3,
        &rt,
    )?;
    Ok(())
}
