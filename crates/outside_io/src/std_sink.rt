ghost use Rattle.std.specs.Prelude.{◌≡◌, ◌≤◌, ℕ, None, OnOk, OnErr};
ghost use Rattle.outside_io.specs.Counts.{Rose, one_more};
ghost use Rattle.outside_io.specs.Written.{Grew, GrewByFront};

use crate::sink::{Failed, Sink};
use std::io::Write;
use std::marker::Model;

/// A writer of the standard library, seen as its count of faults and the bytes that the writer is
/// known to hold. Of a real writer none are known.
#[derive(Drop)]
pub struct StdSink<W: Write> {
    writer: W,
    faults: u64,
}

impl<W: Write> Model for StdSink<W> {
    ghost use Rattle.outside_io.specs.Outlet.{Outlet};

    ghost Value = { Outlet };

    ghost view = { λ s. record { contents = W.contents s.writer; faults = s.faults } };
}

impl<W: Write> StdSink<W> {
    /// A sink over this writer, with no fault so far.
    pub fn make(writer: W) -> StdSink<W>
        ensures { result ≡ record { contents = W.contents writer; faults = 0 } }
    {
        StdSink { writer, faults: 0 }
    }
}

impl<W: Write> Sink for StdSink<W> {
    ghost written = { λ _. None };

    ghost faults = { λ s. s.faults };

    /// Ends at the first fault. A write that takes no byte is one.
    fn put(&mut self, piece: &[u8]) -> Result<(), Failed>
        ensures whole { OnOk result (Grew self.old.contents self.new.contents piece.now) }
        ensures part { OnErr result (GrewByFront self.old.contents self.new.contents piece.now) }
        ensures kept { OnOk result (self.new.faults ≡ self.old.faults) }
        ensures raised { OnErr result (self.new.faults ≡ one_more self.old.faults) }
        ensures later { self.old.faults ≤ self.new.faults }
    {
        match write_whole(&mut self.writer, piece) {
            Ok(()) => Ok(()),
            Err(Failed) => {
                self.faults = self.faults.saturating_add(1);
                Err(Failed)
            }
        }
    }
}

// Writes in turns that each take a byte or end it.
fn write_whole<W: Write>(writer: &mut W, piece: &[u8]) -> Result<(), Failed>
    ensures whole { OnOk result (Grew (W.contents writer.old) (W.contents writer.new) piece.now) }
    ensures part { OnErr result (GrewByFront (W.contents writer.old) (W.contents writer.new) piece.now) }
{
    let mut rest = piece;
    while !rest.is_empty() {
        match writer.write(rest) {
            Ok(0) => return Err(Failed),
            Ok(count) => rest = &rest[count..],
            Err(_) => return Err(Failed),
        }
    }
    Ok(())
}
