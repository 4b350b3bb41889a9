use crate::calls::{expect, shown_by};
use crate::sets::{EQUATOR1, EQUATOR2, VANGUARD};
use std::alloc::{AllocError, Global};
use std::process::Abort;
use std::test::Fail;

/// A file of two lines.
fn file_of(alloc: Global, first: &[u8], second: &[u8]) -> Result<Vec<u8>, AllocError> {
    let mut bytes = Vec::new(alloc);
    bytes.extend_from_slice(first)?;
    bytes.push(b'\n')?;
    bytes.extend_from_slice(second)?;
    Ok(bytes)
}

/// The set of these lines has this fate.
fn fate(
    first: &[u8],
    second: &[u8],
    fate: &str,
    rt: &(impl Abort + AllocGlobal),
) -> Result<(), AllocError> {
    let mut wanted = Vec::new(rt.alloc());
    wanted.extend_from_slice(b"PASSLOCATE 1\nAT 2000-06-27T00:00:00.000000000Z\nSAT 90001 ")?;
    wanted.extend_from_slice(fate.as_bytes())?;
    wanted.extend_from_slice(b" -\nEND\n")?;
    let file = file_of(rt.alloc(), first, second)?;
    let line = b"locate --catalogue=a --number=90001 --at=2000-06-27T00:00:00Z";
    let (out, found) = shown_by(rt.alloc(), line, file.as_slice())?;
    expect(&out, wanted.as_slice(), found, 1, fate, rt);
    Ok(())
}

#[test]
fn a_set_outside_the_limits_has_its_fate(rt: HostRuntime) -> Result<(), Fail> {
    fate(
        EQUATOR1,
        b"2 90001   0.0000   0.0000 0010000   0.0000   0.0000  6.00000000    10",
        "DEEP",
        &rt,
    )?;
    fate(
        EQUATOR1,
        b"2 90001   0.0000   0.0000 0010000   0.0000   0.0000 17.00000000    12",
        "LOW",
        &rt,
    )?;
    fate(
        EQUATOR1,
        b"2 90001   0.0000   0.0000 2000001   0.0000   0.0000 15.00000000    12",
        "ECCENTRIC",
        &rt,
    )?;
    fate(
        EQUATOR1,
        b"2 90001 175.0001   0.0000 0010000   0.0000   0.0000 15.00000000    14",
        "INCLINED",
        &rt,
    )?;
    fate(
        b"1 90001U 00001A   00179.00000000  .00000000  00000-0  10001-2 0    16",
        EQUATOR2,
        "DRAG",
        &rt,
    )?;
    Ok(())
}

/// The words of a line write what begins with this head, and end with this status.
fn begins(
    line: &str,
    head: &[u8],
    wanted_status: u8,
    rt: &(impl Abort + AllocGlobal),
) -> Result<(), AllocError> {
    let (out, status) = shown_by(rt.alloc(), line.as_bytes(), VANGUARD)?;
    assert!(rt; out.written().starts_with(head), "{line}");
    assert_eq!(rt; status, wanted_status, "{line}");
    Ok(())
}

#[test]
fn seven_days_from_the_epoch_are_not_far_and_a_nanosecond_more_is(
    rt: HostRuntime,
) -> Result<(), Fail> {
    begins(
        "locate --catalogue=a --number=5 --at=2000-07-04T18:50:19.733568Z",
        b"PASSLOCATE 1\nAT 2000-07-04T18:50:19.733568000Z\nSAT 5 OK -\nX ",
        0,
        &rt,
    )?;
    begins(
        "locate --catalogue=a --number=5 --at=2000-07-04T18:50:19.733568001Z",
        b"PASSLOCATE 1\nAT 2000-07-04T18:50:19.733568001Z\nSAT 5 FAR -\nEND\n",
        1,
        &rt,
    )?;
    begins(
        "locate --catalogue=a --number=005 --at=2000-06-20T18:50:19.733568Z",
        b"PASSLOCATE 1\nAT 2000-06-20T18:50:19.733568000Z\nSAT 5 OK -\nX ",
        0,
        &rt,
    )?;
    begins(
        "locate --catalogue=a --number=5 --at=2000-06-20T18:50:19.733567999Z",
        b"PASSLOCATE 1\nAT 2000-06-20T18:50:19.733567999Z\nSAT 5 FAR -\nEND\n",
        1,
        &rt,
    )?;
    begins(
        "locate --catalogue=a --number=6 --at=2000-06-27T18:50:19.733568Z",
        b"PASSLOCATE 1\nAT 2000-06-27T18:50:19.733568000Z\nMISSING 6\nEND\n",
        1,
        &rt,
    )?;
    Ok(())
}
