use std::alloc::{AllocError, Global};
use std::collections::BTreeMap;
use std::marker::Model;

/// Files in memory, by name.
#[derive(Drop)]
pub struct Folder {
    alloc: Global,
    files: BTreeMap<Vec<u8>, Vec<u8>>,
}

impl Model for Folder {
    ghost use Rattle.outside_io.specs.Folder.{Files, files_code, files_of};

    ghost Value = { Files };

    ghost coded = { files_code };

    ghost view = { λ f. files_of f.files.entries };
}

impl Folder {
    ghost use Rattle.std.specs.Prelude.{◌≡◌, OnOk, OnErr, option_map};
    ghost use Rattle.std.specs.FinMap as map;

    pub fn new(alloc: Global) -> Folder
        ensures { result ≡ map.empty }
    {
        Folder {
            alloc,
            files: BTreeMap::new(alloc),
        }
    }

    /// Adds a file, in the place of one that has the name.
    pub fn put(&mut self, name: &[u8], bytes: &[u8]) -> Result<(), AllocError>
        ensures ok { OnOk result (self.new ≡ map.insert self.old name.now bytes.now) }
        ensures err { OnErr result (self.new ≡ self.old) }
    {
        let name = Vec::from_slice(self.alloc, name)?;
        let bytes = Vec::from_slice(self.alloc, bytes)?;
        self.files.insert(name, bytes)?;
        Ok(())
    }

    /// The bytes of the file of this name.
    pub fn get(&self, name: &[u8]) -> Option<&[u8]>
        ensures { option_map (λ b. b.now) result ≡ map.get self.now name.now }
    {
        match self.files.get(name) {
            Some(bytes) => Some(bytes.as_slice()),
            None => None,
        }
    }
}
