use crate::calls::{expect, run_over};
use crate::files::{VANGUARD, VANGUARD_SHOWN, WORDS};
use outside_io::MemorySink;
use std::alloc::AllocError;
use std::process::Abort;
use std::test::Fail;
use top_call::status;

/// The words of another file, which is not there.
const OTHER: &str = "show --catalogue=b --start=2000-06-28T00:00:00Z";

/// The words of a line write this into an output with this room, whose put of this number fails, and end with this status.
fn writes(
    line: &str,
    room: u64,
    failing: u64,
    wanted: &[u8],
    wanted_status: u8,
    rt: &(impl Abort + AllocGlobal),
) -> Result<(), AllocError> {
    let mut out = MemorySink::make(rt.alloc(), room)?;
    out.fail_at(failing)?;
    let outcome = run_over(rt.alloc(), line.as_bytes(), VANGUARD, &mut out)?;
    expect(&out, wanted, status(&outcome), wanted_status, line, rt);
    Ok(())
}

#[test]
fn each_line_is_one_put_and_half_of_the_failing_one_is_written(
    rt: HostRuntime,
) -> Result<(), Fail> {
    writes(WORDS, 1000, 1, b"PASSS", 8, &rt)?;
    writes(
        WORDS,
        1000,
        2,
        b"PASSSHOW 1\nSET 5 2000-06-27T18:50:19.733568000Z 10.82419157 0.18",
        8,
        &rt,
    )?;
    writes(
        WORDS,
        1000,
        3,
        b"PASSSHOW 1\nSET 5 2000-06-27T18:50:19.733568000Z 10.82419157 0.1859667 34.2682 348.7242 331.7664 19.3264 0.000028098 -\nEN",
        8,
        &rt,
    )?;
    writes(WORDS, 1000, 4, VANGUARD_SHOWN, 0, &rt)?;
    writes(WORDS, 0, 0, b"", 8, &rt)?;
    writes(WORDS, 20, 0, b"PASSSHOW 1\nSET 5 200", 8, &rt)?;
    writes(OTHER, 1000, 1, b"error", 6, &rt)?;
    writes(OTHER, 1000, 2, b"error read\n", 6, &rt)?;
    Ok(())
}
