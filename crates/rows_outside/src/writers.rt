use outside_io::{Failed, Sink, StdSink};
use std::alloc::Global;
use std::io;
use std::io::{ErrorKind, Write};
use std::process::Abort;
use std::test::Fail;

/// A writer in memory that takes at most `step` bytes a call, and errs once it has taken `limit`.
#[derive(Drop)]
struct Slow {
    bytes: Vec<u8>,
    step: usize,
    limit: usize,
    calls: u32,
}

impl Slow {
    fn make(alloc: Global, step: usize, limit: usize) -> Slow {
        Slow {
            bytes: Vec::new(alloc),
            step,
            limit,
            calls: 0,
        }
    }
}

impl Write for Slow {
    fn write(&mut self, piece: &[u8]) -> io::Result<usize> {
        self.calls = self.calls.saturating_add(1);
        if self.bytes.len() >= self.limit {
            return Err(ErrorKind::Interrupted.into());
        }
        let count = piece.len().min(self.step);
        match self.bytes.extend_from_slice(&piece[..count]) {
            Ok(()) => Ok(count),
            Err(_) => Err(ErrorKind::OutOfMemory.into()),
        }
    }

    fn flush(&mut self) -> io::Result<()> {
        Ok(())
    }
}

/// The put of five bytes over a writer of this step and limit goes through or fails, and this was taken then, in so many
/// calls.
fn puts(
    step: usize,
    limit: usize,
    goes_through: bool,
    taken: &[u8],
    calls: u32,
    rt: &(impl Abort + AllocGlobal),
) {
    let mut writer = Slow::make(rt.alloc(), step, limit);
    let mut sink = StdSink::make(&mut writer);
    let answer = sink.put(b"hello");
    assert_eq!(rt; answer, if goes_through { Ok(()) } else { Err(Failed) });
    assert_eq!(rt; writer.bytes.as_slice(), taken);
    assert_eq!(rt; writer.calls, calls);
}

#[test]
fn a_put_goes_on_until_all_is_taken(rt: HostRuntime) {
    puts(1, 100, true, b"hello", 5, &rt);
    puts(2, 100, true, b"hello", 3, &rt);
    puts(100, 100, true, b"hello", 1, &rt);
    puts(0, 100, false, b"", 1, &rt);
    puts(2, 4, false, b"hell", 3, &rt);
}

#[test]
fn nothing_is_put_without_a_write(rt: HostRuntime) -> Result<(), Fail> {
    let mut writer = Slow::make(rt.alloc(), 0, 0);
    let mut sink = StdSink::make(&mut writer);
    assert_eq!(rt; sink.put(b""), Ok(()));
    assert_eq!(rt; writer.calls, 0);
    Ok(())
}
