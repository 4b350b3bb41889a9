use crate::folder::Folder;
use crate::shelf::{LoadFault, Shelf};
use std::alloc::{AllocError, Global};
use std::marker::Model;

/// A shelf in memory, whose loads fail where no file has the name and where a test asks for it.
#[derive(Drop)]
pub struct MemoryShelf {
    files: Folder,
    failing: Vec<u64>,
    calls: u64,
    faults: u64,
    overs: u64,
}

impl Model for MemoryShelf {
    ghost use Rattle.outside_io.specs.Holding.{Holding, holding_code};

    ghost Value = { Holding };

    ghost coded = { holding_code };

    ghost view = { λ s. record { files = s.files; failing = s.failing.items; calls = s.calls; counts = record { faults = s.faults; overs = s.overs } } };
}

impl MemoryShelf {
    ghost use Rattle.std.specs.Prelude.{◌≡◌, [], ◌∷◌, ◌++◌, IfOk, OnOk, OnErr};
    ghost use Rattle.std.specs.FinMap as map;

    /// A shelf with no file and no load that is to fail.
    pub fn make(alloc: Global) -> Result<MemoryShelf, AllocError>
        ensures { IfOk result (λ s. s ≡ record { files = map.empty; failing = []; calls = 0; counts = record { faults = 0; overs = 0 } }) }
    {
        Ok(MemoryShelf {
            files: Folder::new(alloc),
            failing: Vec::new(alloc),
            calls: 0,
            faults: 0,
            overs: 0,
        })
    }

    /// Adds a file, in the place of one that has the name.
    pub fn add(&mut self, name: &[u8], bytes: &[u8]) -> Result<(), AllocError>
        ensures ok { OnOk result (self.new ≡ record self.old { files = map.insert self.old.files name.now bytes.now }) }
        ensures err { OnErr result (self.new ≡ self.old) }
    {
        self.files.put(name, bytes)?;
        Ok(())
    }

    /// The load of this number, counted from 1, is to fail.
    pub fn fail_at(&mut self, call: u64) -> Result<(), AllocError>
        ensures ok { OnOk result (self.new ≡ record self.old { failing = self.old.failing ++ call ∷ [] }) }
        ensures err { OnErr result (self.new ≡ self.old) }
    {
        self.failing.push(call)?;
        Ok(())
    }
}

impl Shelf for MemoryShelf {
    ghost use Rattle.std.specs.Prelude.{◌≡◌, ◌≤◌, ◌<◌, ◌↔◌, Some, vec_len, IfOk, OnOk, IsErrOf};
    ghost use Rattle.std.specs.FinMap as map;
    ghost use Rattle.outside_io.specs.Holding.{LoadFails, after_load};
    ghost use Rattle.outside_io.specs.Counts.{IsKept, RoseAlone};
    ghost use Rattle.outside_io.specs.Held.{IsTold, IsLonger};

    ghost held = { λ s name. map.get s.files name };

    ghost allows = { λ _ _. Unit {0} };

    ghost faults = { λ s. s.counts.faults };

    ghost overs = { λ s. s.counts.overs };

    fn load(&mut self, alloc: Global, name: &[u8], room: u64) -> Result<Vec<u8>, LoadFault>
        ensures told { IfOk result (λ v. map.get self.old.files name.now ≡ Some v.items) }
        ensures fits { IfOk result (λ v. vec_len v ≤ room) }
        ensures failed { IsErrOf result LoadFault.Failed ↔ LoadFails self.old name.now }
        ensures too_long { IsErrOf result LoadFault.TooLong ↔ ((¬ (LoadFails self.old name.now)) × IsLonger (map.get self.old.files name.now) room) }
        ensures new { self.new ≡ after_load self.old result }
        ensures faults_later { self.old.counts.faults ≤ self.new.counts.faults }
        ensures overs_later { self.old.counts.overs ≤ self.new.counts.overs }
    {
        self.calls = self.calls.saturating_add(1);
        if self.failing.contains(&self.calls) {
            self.faults = self.faults.saturating_add(1);
            return Err(LoadFault::Failed);
        }
        let Some(bytes) = self.files.get(name) else {
            self.faults = self.faults.saturating_add(1);
            return Err(LoadFault::Failed);
        };
        if bytes.len() as u64 > room {
            self.overs = self.overs.saturating_add(1);
            return Err(LoadFault::TooLong);
        }
        match Vec::from_slice(alloc, bytes) {
            Ok(copy) => Ok(copy),
            Err(_) => Err(LoadFault::OutOfMemory),
        }
    }
}
