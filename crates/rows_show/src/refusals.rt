use crate::calls::{expect, run_on, words_of, writes};
use crate::files::{VANGUARD, VANGUARD_SHOWN, VANGUARD1, VANGUARD2, WORDS};
use elements::Text;
use outside_io::{MemoryShelf, MemorySink};
use std::alloc::{AllocError, Global};
use std::test::Fail;
use top_call::status;

/// A name and a line 1 alone.
const LINE2_MISSING: &[u8] =
    b"\n0 VANGUARD 1\n1 00005U 58002B   00179.78495062  .00000023  00000-0  28098-4 0  4753\n\n";

/// A line 1 with another check digit.
const CHECK_WRONG: &[u8] =
    b"1 00005U 58002B   00179.78495062  .00000023  00000-0  28098-4 0  4754\n2 00005  34.2682 348.7242 1859667 331.7664  19.3264 10.82419157413667\n";

/// Lines of two satellites.
const MIXED: &[u8] =
    b"1 25544U 98067A   08264.51782528 -.00002182  00000-0 -11606-4 0  2927\n2 00005  34.2682 348.7242 1859667 331.7664  19.3264 10.82419157413667\n";

/// A message with a key that is not read.
const UNSUPPORTED: &[u8] = b"\nCCSDS_OMM_VERS = 2.0\nSEMI_MAJOR_AXIS = 6730\n";

#[test]
fn the_first_fault_of_the_words_is_the_one_line(rt: HostRuntime) -> Result<(), Fail> {
    writes("show", b"", b"error usage missing catalogue\n", 2, &rt)?;
    writes(
        "show --catalogue=a --start=x y",
        b"",
        b"error usage word 4\n",
        2,
        &rt,
    )?;
    writes(
        "show --catalogue=b --start=2000-06-28",
        b"",
        b"error window shape\n",
        3,
        &rt,
    )?;
    writes(
        "show --catalogue=b --start=2057-01-01T00:00:00Z",
        b"",
        b"error window year\n",
        3,
        &rt,
    )?;
    writes(
        "show --catalogue=b --start=2000-06-28T00:00:00Z",
        VANGUARD,
        b"error read\n",
        6,
        &rt,
    )?;
    writes(
        "show --catalogue=a/ --start=2000-06-28T00:00:00Z",
        VANGUARD,
        b"error read\n",
        6,
        &rt,
    )?;
    Ok(())
}

#[test]
fn the_first_fault_of_the_file_is_the_one_line(rt: HostRuntime) -> Result<(), Fail> {
    writes(WORDS, b"", b"error catalogue empty\n", 4, &rt)?;
    writes(
        WORDS,
        b"\n \r\n\t\n\n  ",
        b"error catalogue empty\n",
        4,
        &rt,
    )?;
    writes(WORDS, VANGUARD1, b"error catalogue odd 1\n", 4, &rt)?;
    writes(WORDS, VANGUARD2, b"error catalogue odd 1\n", 4, &rt)?;
    writes(WORDS, LINE2_MISSING, b"error catalogue odd 3\n", 4, &rt)?;
    writes(
        WORDS,
        CHECK_WRONG,
        b"error catalogue set 1 tle check 1 4 3\n",
        4,
        &rt,
    )?;
    writes(WORDS, MIXED, b"error catalogue set 1 tle differ\n", 4, &rt)?;
    writes(
        WORDS,
        UNSUPPORTED,
        b"error catalogue set 2 omm unsupported SEMI_MAJOR_AXIS\n",
        4,
        &rt,
    )?;
    Ok(())
}

/// The published set, so many times.
fn copies(alloc: Global, count: u32) -> Result<Vec<u8>, AllocError> {
    let mut bytes = Vec::new(alloc);
    for _ in 0..count {
        bytes.extend_from_slice(VANGUARD)?;
    }
    Ok(bytes)
}

#[test]
fn a_file_has_at_most_16384_sets(rt: HostRuntime) -> Result<(), Fail> {
    let bytes = copies(rt.alloc(), 16_384)?;
    writes(WORDS, bytes.as_slice(), VANGUARD_SHOWN, 0, &rt)?;
    let bytes = copies(rt.alloc(), 16_385)?;
    writes(
        WORDS,
        bytes.as_slice(),
        b"error catalogue toomany\n",
        4,
        &rt,
    )?;
    Ok(())
}

#[test]
fn a_file_has_at_most_16_mib(rt: HostRuntime) -> Result<(), Fail> {
    let mut bytes = vec![in rt.alloc(); b'x'; 16_777_216]?;
    writes(WORDS, bytes.as_slice(), b"error catalogue odd 1\n", 4, &rt)?;
    bytes.push(b'x')?;
    writes(WORDS, bytes.as_slice(), b"error toolong\n", 7, &rt)?;
    let mut blanks = vec![in rt.alloc(); b' '; 16_777_216]?;
    writes(WORDS, blanks.as_slice(), b"error catalogue empty\n", 4, &rt)?;
    blanks.push(b' ')?;
    writes(WORDS, blanks.as_slice(), b"error toolong\n", 7, &rt)?;
    Ok(())
}

/// A shelf that holds the published set, and whose first load fails.
fn failing_once(alloc: Global) -> Result<MemoryShelf, AllocError> {
    let mut shelf = MemoryShelf::make(alloc)?;
    shelf.add(b"a", VANGUARD)?;
    shelf.fail_at(1)?;
    Ok(shelf)
}

/// What these words write over a shelf, and the exit status.
fn shown_on(
    alloc: Global,
    words: &[Text],
    shelf: &mut MemoryShelf,
) -> Result<(MemorySink, u8), AllocError> {
    let mut out = MemorySink::make(alloc, 1000)?;
    let outcome = run_on(alloc, words, shelf, &mut out);
    Ok((out, status(&outcome)))
}

#[test]
fn a_load_that_fails_is_told_and_the_next_run_reads(rt: HostRuntime) -> Result<(), Fail> {
    let words = words_of(rt.alloc(), WORDS.as_bytes())?;
    let mut shelf = failing_once(rt.alloc())?;
    let (out, found) = shown_on(rt.alloc(), words.as_slice(), &mut shelf)?;
    expect(&out, b"error read\n", found, 6, "a load that fails", &rt);
    let (out, found) = shown_on(rt.alloc(), words.as_slice(), &mut shelf)?;
    expect(&out, VANGUARD_SHOWN, found, 0, "the next load", &rt);
    Ok(())
}
