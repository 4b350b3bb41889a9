//! Runs of the command.
use crate::given::{POLE, an_hour};
use elements::Window;
use outside_io::{MemoryShelf, MemorySink};
use plan_command::{Plan, run_plan};
use run_ends::{Ending, Refusal};
use std::alloc::{AllocError, Global};
use std::process::Abort;

/// The exit status that an ending stands for.
fn status(ending: &Ending<Plan>) -> u8 {
    match ending {
        Ending::Done { product } => { if product.whole() { 0 } else { 1 } }
        Ending::WriteFault { .. } => 8,
        Ending::Refused(Refusal::BadCatalogue(_)) => 4,
        Ending::Refused(Refusal::BadStations(_)) => 5,
        Ending::Refused(Refusal::Unread) => 6,
        Ending::Refused(Refusal::TooLong) => 7,
        Ending::Refused(Refusal::OutOfMemory) => 9,
    }
}

/// What the command writes over a shelf that holds a catalogue and stations, whose load of a number fails, into an output whose
/// put of a number fails, and the status; both are counted from 1, and none of number 0 comes.
pub fn run_over(
    alloc: Global,
    catalogue: &[u8],
    stations: &[u8],
    window: Window,
    load: u64,
    put: u64,
) -> Result<(MemorySink, u8), AllocError> {
    let mut shelf = MemoryShelf::make(alloc)?;
    shelf.add(b"c", catalogue)?;
    shelf.add(b"s", stations)?;
    shelf.fail_at(load)?;
    let mut out = MemorySink::make(alloc, 100_000)?;
    out.fail_at(put)?;
    let ending = run_plan(alloc, b"c", b"s", window, &mut shelf, &mut out);
    let found = status(&ending);
    Ok((out, found))
}

/// The command writes this of a catalogue and stations over a window, with this status.
pub fn writes(
    catalogue: &[u8],
    stations: &[u8],
    window: Window,
    wanted: &[u8],
    wanted_status: u8,
    rt: &(impl Abort + AllocGlobal),
) -> Result<(), AllocError> {
    let (out, found) = run_over(rt.alloc(), catalogue, stations, window, 0, 0)?;
    assert_eq!(rt; out.written(), wanted);
    assert_eq!(rt; found, wanted_status);
    Ok(())
}

/// The command writes this of a catalogue and the pole over an hour, where a load or a put fails, with this status.
pub fn writes_failing(
    catalogue: &[u8],
    load: u64,
    put: u64,
    wanted: &[u8],
    wanted_status: u8,
    rt: &(impl Abort + AllocGlobal),
) -> Result<(), AllocError> {
    let (out, found) = run_over(rt.alloc(), catalogue, POLE, an_hour(), load, put)?;
    assert_eq!(rt; out.written(), wanted, "load {load}, put {put}");
    assert_eq!(rt; found, wanted_status, "load {load}, put {put}");
    Ok(())
}
