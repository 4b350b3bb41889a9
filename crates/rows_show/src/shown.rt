use crate::calls::{run_over, writes};
use crate::files::{
    LETTERED1, LETTERED2, MESSAGE, STATION_SET, STATION1, STATION2, VANGUARD, VANGUARD_SET,
    VANGUARD1, VANGUARD2, WORDS,
};
use catalogue::Catalogue;
use outside_io::MemorySink;
use std::alloc::{AllocError, Global};
use std::process::Abort;
use std::test::Fail;
use top_call::{Outcome, Product};

/// These pieces behind one another.
fn joined(alloc: Global, pieces: &[&[u8]]) -> Result<Vec<u8>, AllocError> {
    let mut bytes = Vec::new(alloc);
    for piece in pieces {
        bytes.extend_from_slice(piece)?;
    }
    Ok(bytes)
}

/// The words of a line show a file of these pieces as these, between the first and the last line.
fn shows(
    line: &str,
    file: &[&[u8]],
    sets: &[&[u8]],
    rt: &(impl Abort + AllocGlobal),
) -> Result<(), AllocError> {
    let file = joined(rt.alloc(), file)?;
    let mut wanted = joined(rt.alloc(), &[b"PASSSHOW 1\n"])?;
    wanted.extend_from_slice(joined(rt.alloc(), sets)?.as_slice())?;
    wanted.extend_from_slice(b"END\n")?;
    writes(line, file.as_slice(), wanted.as_slice(), 0, rt)
}

#[test]
fn the_sets_of_a_file_are_printed(rt: HostRuntime) -> Result<(), Fail> {
    let vanguard: &[&[u8]] = &[b"SET 5 ", VANGUARD_SET, b"-\n"];
    shows(WORDS, &[VANGUARD], vanguard, &rt)?;
    let other = "show --start 2000-06-28T00:00:00.000000001 --catalogue a";
    shows(other, &[VANGUARD], vanguard, &rt)?;
    shows(
        WORDS,
        &[b"\n0 VANGUARD 1\n", VANGUARD1, b"\n", VANGUARD2],
        &[b"SET 5 ", VANGUARD_SET, b"VANGUARD 1\n"],
        &rt,
    )?;
    shows(
        WORDS,
        &[LETTERED1, LETTERED2],
        &[b"SET 100005 ", VANGUARD_SET, b"-\n"],
        &rt,
    )?;
    shows(
        "show --catalogue=a --start=2008-09-20T00:00:00Z",
        &[MESSAGE],
        &[b"SET 25544 ", STATION_SET, b"ISS (ZARYA)\n"],
        &rt,
    )?;
    // Two satellites, and one twice, under two names: the first of them is told.
    shows(
        WORDS,
        &[STATION1, STATION2, VANGUARD],
        &[
            b"SET 25544 ",
            STATION_SET,
            b"-\nSET 5 ",
            VANGUARD_SET,
            b"-\n",
        ],
        &rt,
    )?;
    shows(
        WORDS,
        &[b"First\n", VANGUARD, b"Second\n", VANGUARD],
        &[b"SET 5 ", VANGUARD_SET, b"First\n"],
        &rt,
    )?;
    Ok(())
}

/// The number of the one satellite of a catalogue.
fn number_in(catalogue: &Catalogue) -> Option<u32> {
    if catalogue.len() == 1 {
        Some(catalogue.entry(0).elements.number())
    } else {
        None
    }
}

/// The number of the one satellite that was shown.
fn number_shown(outcome: &Outcome) -> Option<u32> {
    match outcome {
        Outcome::Done {
            product: Product::Shown(catalogue),
        } => number_in(catalogue),
        _ => None,
    }
}

#[test]
fn the_product_is_the_catalogue(rt: HostRuntime) -> Result<(), Fail> {
    let mut out = MemorySink::make(rt.alloc(), 1000)?;
    let outcome = run_over(rt.alloc(), WORDS.as_bytes(), VANGUARD, &mut out)?;
    assert_eq!(rt; number_shown(&outcome), Some(5));
    Ok(())
}
