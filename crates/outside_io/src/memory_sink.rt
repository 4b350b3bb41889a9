use crate::sink::{Failed, Sink};
use std::alloc::{AllocError, Global};
use std::marker::Model;

/// A sink in memory with room for so many bytes, whose puts fail where they do not fit and where
/// a test asks for it.
#[derive(Drop)]
pub struct MemorySink {
    bytes: Vec<u8>,
    room: usize,
    failing: Vec<u64>,
    calls: u64,
    faults: u64,
}

impl Model for MemorySink {
    ghost use Rattle.std.specs.Prelude.{◌≤◌, vec_len, vec_capacity};
    ghost use Rattle.outside_io.specs.Output.{Output};

    ghost Value = { Output };

    ghost view = { λ s. record { bytes = s.bytes.items; room = s.room; failing = s.failing.items; calls = s.calls; faults = s.faults } };

    ghost invariant = { λ s. (s.room ≤ vec_capacity s.bytes) × (vec_len s.bytes ≤ s.room) };
}

impl MemorySink {
    ghost use Rattle.std.specs.Prelude.{◌≡◌, [], ◌∷◌, ◌++◌, IfOk, OnOk, OnErr};

    /// An empty sink with room for so many bytes, which it takes here.
    pub fn make(alloc: Global, room: u64) -> Result<MemorySink, AllocError>
        ensures { IfOk result (λ s. s ≡ record { bytes = []; room = room; failing = []; calls = 0; faults = 0 }) }
    {
        let room = room as usize;
        Ok(MemorySink {
            bytes: Vec::with_capacity(alloc, room)?,
            room,
            failing: Vec::new(alloc),
            calls: 0,
            faults: 0,
        })
    }

    /// The put of this number, counted from 1, is to fail.
    pub fn fail_at(&mut self, call: u64) -> Result<(), AllocError>
        ensures ok { OnOk result (self.new ≡ record self.old { failing = self.old.failing ++ call ∷ [] }) }
        ensures err { OnErr result (self.new ≡ self.old) }
    {
        self.failing.push(call)?;
        Ok(())
    }

    /// What was written.
    pub fn written(&self) -> &[u8]
        ensures { result.now ≡ self.now.bytes }
    {
        &self.bytes
    }
}

impl Sink for MemorySink {
    ghost use Rattle.std.specs.Prelude.{◌≡◌, ◌≤◌, ◌↔◌, Some, IsErr, OnOk, OnErr};
    ghost use Rattle.outside_io.specs.Counts.{Rose};
    ghost use Rattle.outside_io.specs.Written.{Grew, GrewByFront};
    ghost use Rattle.outside_io.specs.Output.{PutFails, after_put, after_fault};

    ghost written = { λ s. Some s.bytes };

    ghost faults = { λ s. s.faults };

    fn put(&mut self, piece: &[u8]) -> Result<(), Failed>
        ensures fails { IsErr result ↔ PutFails self.old piece.now }
        ensures ok { OnOk result (self.new ≡ after_put self.old piece.now) }
        ensures err { OnErr result (self.new ≡ after_fault self.old piece.now) }
        ensures later { self.old.faults ≤ self.new.faults }
    {
        self.calls = self.calls.saturating_add(1);
        let listed = self.failing.contains(&self.calls);
        let left = self.room - self.bytes.len();
        let fails = listed || piece.len() > left;
        let count = if fails {
            (piece.len() / 2).min(left)
        } else {
            piece.len()
        };
        match self.bytes.extend_from_slice(&piece[..count]) {
            Ok(()) => {}
            Err(_) => unreachable!(),
        }
        if fails {
            self.faults = self.faults.saturating_add(1);
            return Err(Failed);
        }
        Ok(())
    }
}
