ghost use Rattle.std.specs.Prelude.{◌≤◌, ◌+◌, vec_len, IfOk, IsErrOf};
ghost use Rattle.outside_io.specs.Held.{IsTold, IsLonger};
ghost use Rattle.outside_io.specs.Reading.{TakesAtMost};

use crate::shelf::{LoadFault, Shelf};
use std::alloc::Global;
use std::io::Read;
use std::marker::Model;
use std::rt::Files;
use std::{fs, str};

/// Real files, through the runtime's access to them, seen as two counts: nothing is told of their
/// bytes.
#[derive(Drop)]
pub struct FileShelf<R: Files> {
    files: R,
    faults: u64,
    overs: u64,
}

impl<R: Files> Model for FileShelf<R> {
    ghost use Rattle.outside_io.specs.Loads.{LoadCounts};

    ghost Value = { LoadCounts };

    ghost view = { λ s. record { faults = s.faults; overs = s.overs } };
}

impl<R: Files> FileShelf<R> {
    ghost use Rattle.std.specs.Prelude.{◌≡◌};

    /// A shelf of the files that the runtime gives access to, as `&rt`, with no fault so far.
    pub fn make(files: R) -> FileShelf<R>
        ensures { result ≡ record { faults = 0; overs = 0 } }
    {
        FileShelf {
            files,
            faults: 0,
            overs: 0,
        }
    }
}

impl<R: Files> Shelf for FileShelf<R> {
    ghost use Rattle.std.specs.Prelude.{◌≡◌, ◌≤◌, ◌↔◌, None, vec_len, IfOk, OnOk, IsErrOf};
    ghost use Rattle.outside_io.specs.Loads.{counts_after};
    ghost use Rattle.outside_io.specs.Counts.{IsKept, RoseAlone};
    ghost use Rattle.outside_io.specs.Held.{IsTold, IsLonger};

    ghost held = { λ _ _. None };

    ghost allows = { λ _ _. Unit {0} };

    ghost faults = { λ s. s.faults };

    ghost overs = { λ s. s.overs };

    /// `Failed` where the name is not UTF-8, and at the first fault of the file.
    fn load(&mut self, alloc: Global, name: &[u8], room: u64) -> Result<Vec<u8>, LoadFault>
        ensures fits { IfOk result (λ v. vec_len v ≤ room) }
        ensures new { self.new ≡ counts_after self.old result }
        ensures faults_later { self.old.faults ≤ self.new.faults }
        ensures overs_later { self.old.overs ≤ self.new.overs }
    {
        let Ok(path) = str::from_utf8(name) else {
            self.faults = self.faults.saturating_add(1);
            return Err(LoadFault::Failed);
        };
        let answer = match fs::open(&self.files, path) {
            Ok(mut file) => read_within(alloc, &mut file, room),
            Err(_) => Err(LoadFault::Failed),
        };
        match answer {
            Err(LoadFault::Failed) => self.faults = self.faults.saturating_add(1),
            Err(LoadFault::TooLong) => self.overs = self.overs.saturating_add(1),
            _ => {}
        }
        answer
    }
}

// Reads to the end, and at most one byte past the room, in turns that each take a byte or end it.
fn read_within<F: Read>(alloc: Global, file: &mut F, room: u64) -> Result<Vec<u8>, LoadFault>
    ensures told { IfOk result (λ v. IsTold (F.remaining file.old) v.items) }
    ensures fits { IfOk result (λ v. vec_len v ≤ room) }
    ensures longer { IsErrOf result LoadFault.TooLong → IsLonger (F.remaining file.old) room }
    ensures taken { TakesAtMost (room + 1) (F.remaining file.old) (F.remaining file.new) }
{
    let mut bytes = Vec::new(alloc);
    let mut chunk = [0u8; 4096];
    loop {
        let left = room - bytes.len() as u64;
        let wanted = if left < 4096 { left as usize + 1 } else { 4096 };
        let count = match file.read(&mut chunk[..wanted]) {
            Ok(0) => return Ok(bytes),
            Ok(count) => count,
            Err(_) => return Err(LoadFault::Failed),
        };
        if count as u64 > left {
            return Err(LoadFault::TooLong);
        }
        if bytes.extend_from_slice(&chunk[..count]).is_err() {
            return Err(LoadFault::OutOfMemory);
        }
    }
}
