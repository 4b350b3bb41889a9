//! The elevation mask of a station.
ghost use Rattle.std.specs.Prelude.{◌≡◌, ◌<◌, length, IfOk, pos, neg_ℤ, slice_get, Some};
ghost use Rattle.decimals.specs.Decimal.{value};
ghost use Rattle.elements.specs.Elements.{IsFromTo};

use crate::sector::Sector;
use elements::{Decimal, OutOfMemory};
use std::alloc::Global;
use std::marker::Model;

/// The sectors of an elevation mask, which go round the horizon from north over east. There are 4 to 360.
/// It keeps its own memory.
#[derive(Drop)]
pub struct MaskRow {
    sectors: Vec<Sector>,
}

impl Model for MaskRow {
    ghost use Rattle.std.specs.Prelude.{List};
    ghost use Rattle.station_file.specs.declared.sector.Sector.{Sector};
    ghost use Rattle.station_file.specs.Masks.{IsMask};

    ghost Value = { List Sector };

    ghost view = { λ mask. mask.sectors.items };

    ghost invariant = { λ mask. IsMask mask.sectors.items };
}

impl MaskRow {
    ghost use Rattle.station_file.specs.Masks.{IsMask, flat_sectors};

    /// The mask of these sectors.
    pub(crate) fn of(sectors: Vec<Sector>) -> MaskRow
        requires { IsMask sectors.items }
        ensures { result ≡ sectors.items }
    {
        MaskRow { sectors }
    }

    /// The mask with one least elevation, from -90 to 90 degrees: its sectors begin at 0, 90, 180 and 270 degrees.
    #[tactic(auto, using(crate::proofs::FlatLemmas::flat_is_mask))]
    pub fn flat(alloc: Global, floor: Decimal) -> Result<MaskRow, OutOfMemory>
        requires { IsFromTo (neg_ℤ (pos 90)) (pos 90) (value floor) }
        ensures { IfOk result (λ mask. mask ≡ flat_sectors floor) }
    {
        let sectors = [
            Sector {
                border: Decimal::whole(0),
                floor,
            },
            Sector {
                border: Decimal::whole(90),
                floor,
            },
            Sector {
                border: Decimal::whole(180),
                floor,
            },
            Sector {
                border: Decimal::whole(270),
                floor,
            },
        ];
        match Vec::from_slice(alloc, &sectors) {
            Ok(sectors) => Ok(MaskRow { sectors }),
            Err(error) => Err(error),
        }
    }

    /// How many sectors there are.
    pub fn len(&self) -> u32
        ensures value { result ≡ length self.now }
        ensures mask { IsMask self.now }
    {
        self.sectors.len() as u32
    }

    /// A sector, counted from 0.
    pub fn sector(&self, k: u32) -> Sector
        requires { k < length self.now }
        ensures value { Some result ≡ slice_get self.now k }
        ensures mask { IsMask self.now }
    {
        self.sectors[k as usize]
    }
}
