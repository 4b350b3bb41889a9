//! The generated catalogue.
ghost use Rattle.std.specs.Prelude.{◌≡◌, ◌+◌, ◌<◌, ◌≤◌, IfOk, OnOk};
ghost use Rattle.grid_command.specs.Generated.{satellites};

use crate::set::set_at;
use catalogue::Catalogue;
use elements::{OutOfMemory, Text};
use std::alloc::Global;

/// The generated catalogue: satellite k, from 0 to below `count`, has the number 90000 + k, no name, the epoch
/// 2000-06-28T00:00:00Z, 15 - k/1000 revolutions a day, the eccentricity (k mod 200)/10000, in degrees the inclination
/// 7k mod 176, node 37k mod 360, argument of perigee 91k mod 360 and mean anomaly 137k mod 360, and the drag term 0.0001.
pub fn generated(alloc: Global, count: u32) -> Result<Catalogue, OutOfMemory>
    requires { (1 ≤ count) × (count ≤ 1000) }
    ensures { IfOk result (λ catalogue. catalogue ≡ satellites count) }
{
    let mut catalogue = Catalogue::empty(alloc);
    for k in 0..count {
        add_satellite(alloc, &mut catalogue, k)?;
    }
    Ok(catalogue)
}

/// Adds satellite k behind those before it.
fn add_satellite(alloc: Global, catalogue: &mut Catalogue, k: u32) -> Result<(), OutOfMemory>
    requires before { catalogue.old ≡ satellites k }
    requires few { k < 1000 }
    ensures { OnOk result (catalogue.new ≡ satellites (k + 1)) }
{
    let name = Text::copy(alloc, b"-")?;
    catalogue.add(set_at(k), name)?;
    Ok(())
}
