use crate::calls::{expect, run_words, written_by};
use outside_io::MemorySink;
use std::alloc::AllocError;
use std::process::Abort;
use std::test::Fail;
use top_call::status;

#[test]
fn no_word_is_refused(rt: HostRuntime) -> Result<(), Fail> {
    let mut out = MemorySink::make(rt.alloc(), 100)?;
    let found = status(&run_words(rt.alloc(), &[], &mut out)?);
    expect(&out, b"error usage nocommand\n", found, 2, "no word", &rt);
    Ok(())
}

/// The words of a line are refused in this line, with this status.
fn refuses(
    line: &[u8],
    wanted: &str,
    wanted_status: u8,
    rt: &(impl Abort + AllocGlobal),
) -> Result<(), AllocError> {
    let (out, found) = written_by(rt.alloc(), line, 100, 0)?;
    expect(&out, wanted.as_bytes(), found, wanted_status, wanted, rt);
    Ok(())
}

#[test]
fn the_first_fault_of_the_words_is_the_one_line(rt: HostRuntime) -> Result<(), Fail> {
    refuses(b"", "error usage command\n", 2, &rt)?;
    refuses(b"--help", "error usage command\n", 2, &rt)?;
    refuses(b"days", "error usage command\n", 2, &rt)?;
    refuses(b"day --lat -90", "error usage word 2\n", 2, &rt)?;
    refuses(b"day --lat= 1", "error usage word 2\n", 2, &rt)?;
    refuses(b"day --lon=1 --lat", "error usage word 3\n", 2, &rt)?;
    refuses(b"day --start=\xff", "error usage word 2\n", 2, &rt)?;
    refuses(b"day --lat 1 2", "error usage word 4\n", 2, &rt)?;
    refuses(b"day --lat=1 --lat 2", "error usage twice lat\n", 2, &rt)?;
    refuses(b"day --lat=1 --lat \xff", "error usage twice lat\n", 2, &rt)?;
    refuses(
        b"day --res 1 --end=1 --res=2 x",
        "error usage twice res\n",
        2,
        &rt,
    )?;
    Ok(())
}

#[test]
fn a_missing_key_comes_before_a_wrong_value(rt: HostRuntime) -> Result<(), Fail> {
    refuses(b"day", "error usage missing lat\n", 2, &rt)?;
    refuses(b"day --lat=91", "error usage missing lon\n", 2, &rt)?;
    refuses(
        b"day --end=1 --res=1 --lat=90.5 --lon=1",
        "error usage missing start\n",
        2,
        &rt,
    )?;
    refuses(
        b"day --start=1 --lat=1 --lon=1",
        "error usage missing end\n",
        2,
        &rt,
    )?;
    refuses(
        b"day --start=1 --end 1 --lat=1 --lon=1",
        "error usage missing res\n",
        2,
        &rt,
    )?;
    refuses(
        b"day --lat=90.5 --lon=0 --start=2000-06-21T00:00:00Z --end=2000-06-21T01:00:00Z --res=1",
        "error usage value lat\n",
        2,
        &rt,
    )?;
    refuses(
        b"day --lat=1=2 --lon=361 --start=2000-06-21T00:00:00Z --end=2000-06-21T01:00:00Z --res=x",
        "error usage value lat\n",
        2,
        &rt,
    )?;
    refuses(
        b"day --lat=0 --lon=360.1 --start=x --end=2000-06-21T01:00:00Z --res=1",
        "error usage value lon\n",
        2,
        &rt,
    )?;
    Ok(())
}

#[test]
fn the_first_fault_of_the_window_is_the_one_line(rt: HostRuntime) -> Result<(), Fail> {
    refuses(
        b"day --lat=0 --lon=0 --start=2057-01-01T00:00:00Z --end=x --res=1",
        "error window shape\n",
        3,
        &rt,
    )?;
    refuses(
        b"day --lat=0 --lon=0 --start=2000-06-21T00:00:00Z --end=2000-06-21T01:00:00.00005Z --res=1",
        "error window shape\n",
        3,
        &rt,
    )?;
    refuses(
        b"day --lat=0 --lon=0 --start=2000-06-21T00:00:00Z --end=2057-01-01T00:00:00Z --res=x",
        "error window year\n",
        3,
        &rt,
    )?;
    refuses(
        b"day --lat=0 --lon=0 --start=2000-06-21T00:00:00Z --end=2000-06-21T00:00:00Z --res=1",
        "error window order\n",
        3,
        &rt,
    )?;
    refuses(
        b"day --lat=0 --lon=0 --start=2000-06-21T00:00:00Z --end=2000-07-01T00:00:01Z --res=0",
        "error window long\n",
        3,
        &rt,
    )?;
    Ok(())
}

/// The words of an hour at the equator, but for the resolution.
const HOUR: &[u8] =
    b"day --lat=0 --lon=0 --start=2000-06-21T00:00:00Z --end=2000-06-21T01:00:00Z --res=";

/// An hour with this resolution is refused.
fn resolution(text: &str, rt: &(impl Abort + AllocGlobal)) -> Result<(), AllocError> {
    let mut line = Vec::new(rt.alloc());
    line.extend_from_slice(HOUR)?;
    line.extend_from_slice(text.as_bytes())?;
    refuses(line.as_slice(), "error window resolution\n", 3, rt)
}

#[test]
fn a_resolution_out_of_its_range_is_the_one_line(rt: HostRuntime) -> Result<(), Fail> {
    resolution("0", &rt)?;
    resolution("61", &rt)?;
    resolution("1x", &rt)?;
    resolution("005", &rt)?;
    Ok(())
}
