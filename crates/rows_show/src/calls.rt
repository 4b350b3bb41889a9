use elements::Text;
use outside_io::{MemoryShelf, MemorySink};
use std::alloc::{AllocError, Global};
use std::process::Abort;
use top_call::{Outcome, run, status};

/// The words of a line, which are parted by one blank each.
pub fn words_of(alloc: Global, line: &[u8]) -> Result<Vec<Text>, AllocError> {
    let mut words = Vec::new(alloc);
    for word in line.split(|byte| *byte == b' ') {
        words.push(Text::copy(alloc, word)?)?;
    }
    Ok(words)
}

/// A run over files and an output in memory.
pub fn run_on(
    alloc: Global,
    words: &[Text],
    shelf: &mut MemoryShelf,
    out: &mut MemorySink,
) -> Outcome {
    run(alloc, words, shelf, out)
}

/// What the words of a line come to over this output and a shelf that holds one file, `a`, with these bytes.
pub fn run_over(
    alloc: Global,
    line: &[u8],
    bytes: &[u8],
    out: &mut MemorySink,
) -> Result<Outcome, AllocError> {
    let words = words_of(alloc, line)?;
    let mut shelf = MemoryShelf::make(alloc)?;
    shelf.add(b"a", bytes)?;
    Ok(run_on(alloc, words.as_slice(), &mut shelf, out))
}

/// What the words of a line write over such a shelf, and the exit status.
pub fn shown_by(alloc: Global, line: &[u8], bytes: &[u8]) -> Result<(MemorySink, u8), AllocError> {
    let mut out = MemorySink::make(alloc, 1000)?;
    let outcome = run_over(alloc, line, bytes, &mut out)?;
    Ok((out, status(&outcome)))
}

/// This is written, and the status is the wanted one.
pub fn expect(
    out: &MemorySink,
    wanted: &[u8],
    found: u8,
    wanted_status: u8,
    about: &str,
    rt: &impl Abort,
) {
    assert_eq!(rt; out.written(), wanted, "{about}");
    assert_eq!(rt; found, wanted_status, "{about}");
}

/// The words of a line over such a shelf write this, and end with this status.
pub fn writes(
    line: &str,
    bytes: &[u8],
    wanted: &[u8],
    wanted_status: u8,
    rt: &(impl Abort + AllocGlobal),
) -> Result<(), AllocError> {
    let (out, found) = shown_by(rt.alloc(), line.as_bytes(), bytes)?;
    expect(&out, wanted, found, wanted_status, line, rt);
    Ok(())
}
