ghost use Rattle.std.specs.Prelude.{◌≡◌, ◌≤◌, ◌↔◌, List, ℕ, vec_len, IfOk, OnOk, IsErrOf};
ghost use Rattle.std.specs.declared.option.Option.{Option};
ghost use Rattle.outside_io.specs.Counts.{IsKept, RoseAlone};
ghost use Rattle.outside_io.specs.Held.{IsTold, IsLonger};

use std::alloc::Global;

/// Why a load gave no bytes.
#[derive(Clone, Copy, Debug, PartialEq, Eq)]
pub enum LoadFault {
    /// The file could not be read, and the count of faults alone rose.
    Failed,
    /// The file has more bytes than there was room for, and the count of such files alone rose.
    TooLong,
    /// There was no memory for the bytes, and no count changed.
    OutOfMemory,
}

/// Where a program's files come from.
pub trait Shelf {
    /// The bytes of a name, where the shelf tells them.
    ghost held: { Self → List ℕ → Option (List ℕ) };

    /// The name may be asked for.
    ghost allows: { Self → List ℕ → Type 0 };

    /// How many loads have failed.
    ghost faults: { Self → ℕ };

    /// How many loads met a file that was too long.
    ghost overs: { Self → ℕ };

    /// The bytes of the file of this name, at most `room` of them.
    fn load(&mut self, alloc: Global, name: &[u8], room: u64) -> Result<Vec<u8>, LoadFault>
        requires { allows self.old name.now }
        ensures told { IfOk result (λ v. IsTold (held self.old name.now) v.items) }
        ensures fits { IfOk result (λ v. vec_len v ≤ room) }
        ensures faults_kept { OnOk result (faults self.new ≡ faults self.old) }
        ensures overs_kept { OnOk result (overs self.new ≡ overs self.old) }
        ensures faults_later { faults self.old ≤ faults self.new }
        ensures overs_later { overs self.old ≤ overs self.new }
        ensures failed { IsErrOf result LoadFault.Failed → RoseAlone (faults self.old) (faults self.new) (overs self.old) (overs self.new) }
        ensures too_long { IsErrOf result LoadFault.TooLong → RoseAlone (overs self.old) (overs self.new) (faults self.old) (faults self.new) }
        ensures memory { IsErrOf result LoadFault.OutOfMemory → IsKept (faults self.old) (faults self.new) (overs self.old) (overs self.new) }
        ensures longer { IsErrOf result LoadFault.TooLong → IsLonger (held self.old name.now) room }
        ensures same_held { (other : List ℕ) → held self.new other ≡ held self.old other }
        ensures same_allows { (other : List ℕ) → allows self.new other ↔ allows self.old other };
}
