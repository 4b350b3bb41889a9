//! Lines that are put into an output.
ghost use Rattle.run_ends.specs.Printed.{IsPrinted, IsRefused};

use outside_io::{Failed, Sink};

/// Puts one line.
pub fn put_line<K: Sink>(line: &[u8], out: &mut K) -> Result<(), Failed>
    ensures { IsPrinted K.Sink result out.old out.new line.now }
{
    out.put(line)
}

/// Puts the one line of a refusal.
pub fn put_refusal<K: Sink>(line: &[u8], out: &mut K)
    ensures { IsRefused K.Sink out.old out.new line.now }
{
    match out.put(line) {
        Ok(()) => {}
        Err(Failed) => {}
    }
}
