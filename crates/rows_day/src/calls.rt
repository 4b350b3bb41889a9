use elements::Text;
use outside_io::{MemoryShelf, MemorySink};
use std::alloc::{AllocError, Global};
use std::process::Abort;
use top_call::{Outcome, run, status};

/// The words of a line, which are parted by one blank each.
pub fn words_of(alloc: Global, line: &[u8]) -> Result<Vec<Text>, AllocError> {
    let mut words = Vec::new(alloc);
    for word in line.split(|byte| *byte == b' ') {
        words.push(Text::copy(alloc, word)?)?;
    }
    Ok(words)
}

/// What the words come to over this output. No file stands on the shelf.
pub fn run_words(
    alloc: Global,
    words: &[Text],
    out: &mut MemorySink,
) -> Result<Outcome, AllocError> {
    let mut shelf = MemoryShelf::make(alloc)?;
    Ok(run(alloc, words, &mut shelf, out))
}

/// What the words of a line come to.
pub fn run_line(alloc: Global, line: &[u8], out: &mut MemorySink) -> Result<Outcome, AllocError> {
    let words = words_of(alloc, line)?;
    run_words(alloc, words.as_slice(), out)
}

/// What the words of a line write into an output with this room, whose put of this number, counted from 1, fails; and
/// the exit status.
pub fn written_by(
    alloc: Global,
    line: &[u8],
    room: u64,
    failing: u64,
) -> Result<(MemorySink, u8), AllocError> {
    let mut out = MemorySink::make(alloc, room)?;
    out.fail_at(failing)?;
    let outcome = run_line(alloc, line, &mut out)?;
    Ok((out, status(&outcome)))
}

/// This is written, and the status is the wanted one.
pub fn expect(
    out: &MemorySink,
    wanted: &[u8],
    found: u8,
    wanted_status: u8,
    about: &str,
    rt: &impl Abort,
) {
    assert_eq!(rt; out.written(), wanted, "{about}");
    assert_eq!(rt; found, wanted_status, "{about}");
}

/// The words of a line write this, and end with this status.
pub fn writes(
    line: &str,
    wanted: &[u8],
    wanted_status: u8,
    rt: &(impl Abort + AllocGlobal),
) -> Result<(), AllocError> {
    let (out, found) = written_by(rt.alloc(), line.as_bytes(), 1000, 0)?;
    expect(&out, wanted, found, wanted_status, line, rt);
    Ok(())
}
