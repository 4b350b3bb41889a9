//! The hold on a list.
ghost use Rattle.std.specs.Prelude.{◌≡◌};

/// A list of a pool: the slot of its first span, and how many spans it has. It cannot be copied, so what it holds is
/// released once at most.
#[derive(Debug, Drop)]
pub struct Track {
    pub(crate) head: Option<u32>,
    pub(crate) count: u32,
}

impl Track {
    /// How many spans the list has.
    pub fn count(&self) -> u32
        ensures { result ≡ self.now.count }
    {
        self.count
    }
}
