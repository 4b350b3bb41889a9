use crate::calls::words_of;
use elements::Text;
use outside_io::{MemoryShelf, MemorySink};
use std::alloc::{AllocError, Global};
use std::process::Abort;
use std::test::Fail;
use top_call::{Outcome, run, status};

/// A published set, as a file.
const VANGUARD: &[u8] =
    b"1 00005U 58002B   00179.78495062  .00000023  00000-0  28098-4 0  4753\n2 00005  34.2682 348.7242 1859667 331.7664  19.3264 10.82419157413667\n";

/// Adds a file.
fn add(shelf: &mut MemoryShelf, name: &[u8], bytes: &[u8]) -> Result<(), AllocError> {
    shelf.add(name, bytes)
}

/// A shelf with that file as `a` and an empty one as `b`.
fn shelf_of_two(alloc: Global) -> Result<MemoryShelf, AllocError> {
    let mut shelf = MemoryShelf::make(alloc)?;
    add(&mut shelf, b"a", VANGUARD)?;
    add(&mut shelf, b"b", b"")?;
    Ok(shelf)
}

/// What the words come to over a shelf.
fn run_on(alloc: Global, words: &[Text], shelf: &mut MemoryShelf, out: &mut MemorySink) -> Outcome {
    run(alloc, words, shelf, out)
}

/// What the words of a line write over that shelf, into an output whose put of this number fails; and the exit status.
fn written_by(alloc: Global, line: &[u8], failing: u64) -> Result<(MemorySink, u8), AllocError> {
    let words = words_of(alloc, line)?;
    let mut shelf = shelf_of_two(alloc)?;
    let mut out = MemorySink::make(alloc, 1000)?;
    out.fail_at(failing)?;
    let outcome = run_on(alloc, words.as_slice(), &mut shelf, &mut out);
    Ok((out, status(&outcome)))
}

/// The words of a line write so many lines, each in one put: where a put fails, half of its line is the last thing
/// written. They end with the first status, and with the second where a put fails.
fn puts(
    line: &str,
    count: usize,
    whole: u8,
    cut: u8,
    rt: &(impl Abort + AllocGlobal),
) -> Result<(), Fail> {
    let (full, found) = written_by(rt.alloc(), line.as_bytes(), 0)?;
    assert_eq!(rt; found, whole, "{line}");
    let mut wanted = Vec::new(rt.alloc());
    let mut lines = 0usize;
    for text in full.written().split_inclusive(|byte| *byte == b'\n') {
        lines = lines.saturating_add(1);
        let (out, found) = written_by(rt.alloc(), line.as_bytes(), lines as u64)?;
        let before = wanted.len();
        wanted.extend_from_slice(&text[..text.len() / 2])?;
        assert_eq!(rt; out.written(), wanted.as_slice(), "{line}, put {lines}");
        assert_eq!(rt; found, cut, "{line}, put {lines}");
        wanted.truncate(before);
        wanted.extend_from_slice(text)?;
    }
    assert_eq!(rt; lines, count, "{line}");
    Ok(())
}

#[test]
fn each_line_of_a_result_is_one_put(rt: HostRuntime) -> Result<(), Fail> {
    puts(
        "day --lat=90 --lon=0 --start=2000-06-21T00:00:00Z --end=2000-06-21T01:00:00Z --res=1",
        4,
        0,
        8,
        &rt,
    )?;
    puts(
        "day --lat=0 --lon=0 --start=2000-06-21T00:00:00Z --end=2000-06-22T00:00:00Z --res=1",
        8,
        0,
        8,
        &rt,
    )?;
    puts(
        "show --catalogue=a --start=2000-06-28T00:00:00Z",
        3,
        0,
        8,
        &rt,
    )?;
    puts(
        "locate --catalogue=a --number=5 --at=2000-06-27T18:50:19.733568Z",
        7,
        0,
        8,
        &rt,
    )?;
    puts(
        "locate --catalogue=a --number=6 --at=2000-06-27T18:50:19.733568Z",
        4,
        1,
        8,
        &rt,
    )?;
    puts(
        "locate --catalogue=a --number=5 --at=2000-07-27T18:50:19.733568Z",
        4,
        1,
        8,
        &rt,
    )?;
    Ok(())
}

#[test]
fn the_line_of_a_refusal_is_one_put(rt: HostRuntime) -> Result<(), Fail> {
    puts("locate", 1, 2, 2, &rt)?;
    puts("show --catalogue=a --start=x", 1, 3, 3, &rt)?;
    puts(
        "show --catalogue=b --start=2000-06-28T00:00:00Z",
        1,
        4,
        4,
        &rt,
    )?;
    puts(
        "locate --catalogue=b --number=5 --at=2000-06-28T00:00:00Z",
        1,
        4,
        4,
        &rt,
    )?;
    puts(
        "show --catalogue=c --start=2000-06-28T00:00:00Z",
        1,
        6,
        6,
        &rt,
    )?;
    Ok(())
}
