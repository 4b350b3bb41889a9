//! Runs over what never fails.
use elements::Text;
use outside_io::{NeverFailShelf, NeverFailSink};
use std::alloc::{AllocError, Global};
use std::test::Fail;
use top_call::{Outcome, Product, run_for_nobody, status};

/// A published set, as a file.
const VANGUARD: &[u8] =
    b"1 00005U 58002B   00179.78495062  .00000023  00000-0  28098-4 0  4753\n2 00005  34.2682 348.7242 1859667 331.7664  19.3264 10.82419157413667\n";

/// A set with six revolutions a day, which is refused.
const DEEP: &[u8] =
    b"1 90001U 00001A   00179.00000000  .00000000  00000-0  00000-0 0    12\n2 90001   0.0000   0.0000 0010000   0.0000   0.0000  6.00000000    10\n";

/// A station at the North Pole.
const POLE: &[u8] =
    b"version = 1\n[[station]]\nname = \"Pole\"\nlat = \"90\"\nlon = \"0\"\nheight = \"0\"\nmask = \"0\"\n";

/// The words of a line, which are parted by one blank each.
fn words_of(alloc: Global, line: &str) -> Result<Vec<Text>, AllocError> {
    let mut words = Vec::new(alloc);
    for word in line.split(' ') {
        words.push(Text::copy(alloc, word.as_bytes())?)?;
    }
    Ok(words)
}

/// A shelf that holds a published set as `a`, one that is refused as `deep`, and a station as `p`.
fn full_shelf(alloc: Global) -> Result<NeverFailShelf, AllocError> {
    let mut shelf = NeverFailShelf::make(alloc)?;
    shelf.add(b"a", VANGUARD)?;
    shelf.add(b"deep", DEEP)?;
    shelf.add(b"p", POLE)?;
    Ok(shelf)
}

/// What words come to over a shelf.
fn run_on(alloc: Global, words: &[Text], shelf: &mut NeverFailShelf) -> Outcome {
    let mut out = NeverFailSink::make();
    run_for_nobody(alloc, words, shelf, &mut out)
}

/// The status, and whether the outcome is done.
fn ended(outcome: &Outcome) -> (u8, bool) {
    match outcome {
        Outcome::Done { .. } => (status(outcome), true),
        _ => (status(outcome), false),
    }
}

/// How words end over a shelf.
fn end_on(alloc: Global, words: &[Text], mut shelf: NeverFailShelf) -> (u8, bool) {
    let outcome = run_on(alloc, words, &mut shelf);
    ended(&outcome)
}

/// How the words of a line end over the shelf that holds three files.
fn end_of(alloc: Global, line: &str) -> Result<(u8, bool), AllocError> {
    let words = words_of(alloc, line)?;
    let shelf = full_shelf(alloc)?;
    Ok(end_on(alloc, words.as_slice(), shelf))
}

/// Words of each command, each with its status, `0` or `1`.
static LINES: [&str; 16] = [
    "day --lat=90 --lon=0 --start=2000-06-21T00:00:00Z --end=2000-06-21T01:00:00Z --res=1",
    "0",
    "day --lat=-48.1 --lon=300.5 --start=2056-12-21T00:00:00Z --end=2056-12-31T00:00:00Z --res=60",
    "0",
    "show --catalogue=a --start=2000-06-28T00:00:00Z",
    "0",
    "locate --catalogue=a --number=5 --at=2000-06-27T18:50:19.733568Z",
    "0",
    "locate --catalogue=a --number=6 --at=2000-06-27T18:50:19.733568Z",
    "1",
    "plan --catalogue=deep --stations=p --start=2000-06-27T00:00:00Z --end=2000-06-27T01:00:00Z --res=1",
    "1",
    "book --catalogue=deep --stations=p --start=2000-06-27T00:00:00Z --end=2000-06-27T01:00:00Z --res=1 --antennas=1",
    "1",
    "grid --count=1",
    "0",
];

#[test]
fn over_what_never_fails_each_command_is_done(rt: HostRuntime) -> Result<(), Fail> {
    for k in 0..LINES.len() / 2 {
        let line = LINES[2 * k];
        let wanted = if LINES[2 * k + 1] == "0" { 0 } else { 1 };
        let (found, is_done) = end_of(rt.alloc(), line)?;
        assert!(rt; is_done, "{line}");
        assert_eq!(rt; found, wanted, "{line}");
    }
    Ok(())
}

/// How many satellites were shown.
fn count_shown(outcome: &Outcome) -> Option<u32> {
    match outcome {
        Outcome::Done {
            product: Product::Shown(catalogue),
        } => Some(catalogue.len()),
        _ => None,
    }
}

/// How many satellites words show over a shelf.
fn shown_on(alloc: Global, words: &[Text], mut shelf: NeverFailShelf) -> Option<u32> {
    let outcome = run_on(alloc, words, &mut shelf);
    count_shown(&outcome)
}

#[test]
fn over_what_never_fails_a_file_is_shown(rt: HostRuntime) -> Result<(), Fail> {
    let words = words_of(
        rt.alloc(),
        "show --catalogue=a --start=2000-06-28T00:00:00Z",
    )?;
    let shelf = full_shelf(rt.alloc())?;
    assert_eq!(rt; shown_on(rt.alloc(), words.as_slice(), shelf), Some(1));
    Ok(())
}

#[test]
fn over_what_never_fails_a_file_that_was_not_added_is_empty(rt: HostRuntime) -> Result<(), Fail> {
    let (found, is_done) = end_of(
        rt.alloc(),
        "show --catalogue=b --start=2000-06-28T00:00:00Z",
    )?;
    assert!(rt; !is_done);
    assert_eq!(rt; found, 4);
    Ok(())
}
