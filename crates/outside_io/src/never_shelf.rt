use crate::folder::Folder;
use crate::shelf::{LoadFault, Shelf};
use std::alloc::{AllocError, Global};
use std::marker::Model;

/// A shelf in memory on which each name is held: one that was not added has no bytes.
#[derive(Drop)]
pub struct NeverFailShelf {
    files: Folder,
    overs: u64,
}

impl Model for NeverFailShelf {
    ghost use Rattle.outside_io.specs.Supply.{Supply, supply_code};

    ghost Value = { Supply };

    ghost coded = { supply_code };

    ghost view = { λ s. record { files = s.files; overs = s.overs } };
}

impl NeverFailShelf {
    ghost use Rattle.std.specs.Prelude.{◌≡◌, IfOk, OnOk, OnErr};
    ghost use Rattle.std.specs.FinMap as map;

    /// A shelf with no file.
    pub fn make(alloc: Global) -> Result<NeverFailShelf, AllocError>
        ensures { IfOk result (λ s. s ≡ record { files = map.empty; overs = 0 }) }
    {
        Ok(NeverFailShelf {
            files: Folder::new(alloc),
            overs: 0,
        })
    }

    /// Adds a file, in the place of one that has the name.
    pub fn add(&mut self, name: &[u8], bytes: &[u8]) -> Result<(), AllocError>
        ensures ok { OnOk result (self.new ≡ record self.old { files = map.insert self.old.files name.now bytes.now }) }
        ensures err { OnErr result (self.new ≡ self.old) }
    {
        self.files.put(name, bytes)?;
        Ok(())
    }
}

impl Shelf for NeverFailShelf {
    ghost use Rattle.std.specs.Prelude.{◌≡◌, ◌≤◌, ◌<◌, ◌↔◌, Some, length, vec_len, IfOk, OnOk, IsErrOf};
    ghost use Rattle.outside_io.specs.Supply.{supplied, supply_after};
    ghost use Rattle.outside_io.specs.Counts.{IsKept, RoseAlone};
    ghost use Rattle.outside_io.specs.Held.{IsTold, IsLonger};

    ghost held = { λ s name. Some (supplied s.files name) };

    ghost allows = { λ _ _. Unit {0} };

    ghost faults = { λ _. 0 };

    ghost overs = { λ s. s.overs };

    fn load(&mut self, alloc: Global, name: &[u8], room: u64) -> Result<Vec<u8>, LoadFault>
        ensures told { IfOk result (λ v. v.items ≡ supplied self.old.files name.now) }
        ensures fits { IfOk result (λ v. vec_len v ≤ room) }
        ensures never { IsErrOf result LoadFault.Failed → ⊥ }
        ensures too_long { IsErrOf result LoadFault.TooLong ↔ (room < length (supplied self.old.files name.now)) }
        ensures new { self.new ≡ supply_after self.old result }
        ensures overs_later { self.old.overs ≤ self.new.overs }
    {
        let bytes = self.files.get(name).unwrap_or(&[]);
        if bytes.len() as u64 > room {
            self.overs = self.overs.saturating_add(1);
            return Err(LoadFault::TooLong);
        }
        match Vec::from_slice(alloc, bytes) {
            Ok(copy) => Ok(copy),
            Err(_) => Err(LoadFault::OutOfMemory),
        }
    }
}
