//! An elevation mask, with its sines and cosines.
use crate::sector::{EnclosedSector, enclosed_at};
use elements::OutOfMemory;
use station_file::MaskRow;
use std::alloc::Global;
use std::marker::Model;

/// The sectors of an elevation mask, each of which ends where the next one begins, and the last where the first does,
/// with enclosures of the directions of their borders and of the sines of their floors. It keeps its own memory.
#[derive(Drop)]
pub struct Mask {
    sectors: Vec<EnclosedSector>,
}

impl Model for Mask {
    ghost use Rattle.std.specs.Prelude.{List};
    ghost use Rattle.station_view.specs.declared.sector.EnclosedSector.{EnclosedSector};
    ghost use Rattle.station_view.specs.Masks.{IsEnclosedMask};

    ghost Value = { List EnclosedSector };

    ghost view = { λ mask. mask.sectors.items };

    ghost invariant = { λ mask. IsEnclosedMask mask.sectors.items };
}

impl Mask {
    ghost use Rattle.std.specs.Prelude.{◌≡◌, IfOk, map};
    ghost use Rattle.station_view.specs.Complete.{HoldsEachDirection};
    ghost use Rattle.station_view.specs.Masks.{IsEnclosedMask, sector_of};

    /// The mask of a station's row.
    pub fn fix(alloc: Global, row: &MaskRow) -> Result<Mask, OutOfMemory>
        ensures sectors { IfOk result (λ mask. map sector_of mask ≡ row.now) }
        ensures complete { IfOk result (λ mask. HoldsEachDirection mask) }
    {
        let mut sectors = Vec::new(alloc);
        let count = row.len();
        for k in 0..count {
            sectors.push(enclosed_at(row, k))?;
        }
        Ok(Mask { sectors })
    }

    /// Its sectors, in the order of their borders.
    pub fn sectors(&self) -> &[EnclosedSector]
        ensures value { result.now ≡ self.now }
        ensures mask { IsEnclosedMask self.now }
    {
        self.sectors.as_slice()
    }
}
