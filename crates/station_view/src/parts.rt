//! How far from the start of a cell directions are certainly above an elevation mask, or below it.
ghost use Rattle.std.specs.Prelude.{◌≡◌, ◌≤◌, All};
ghost use Rattle.exact.specs.Rational.{ℚ, neg_ℚ, ◌-ℚ◌, ◌*ℚ◌};
ghost use Rattle.fixed_iv.specs.Holds.{Holds};
ghost use Rattle.fixed_iv.specs.Place.{Place};
ghost use Rattle.lin_form.specs.Covered.{IsCovered};
ghost use Rattle.lin_form.specs.Parts.{IsAmongFirst};
ghost use Rattle.sgp4_model.specs.Mask.{IsAbove, IsBelow};
ghost use Rattle.sgp4_model.specs.Sectors.{SectorSides};
ghost use Rattle.station_view.specs.Bounds.{HoldSides};
ghost use Rattle.station_view.specs.Lengths.{LengthsRecord};
ghost use Rattle.station_view.specs.Parts.{AboveFloor, BelowFloor, CoverLengths, EveryCovered, InSector, IsElsewhere};

use crate::judge::{judge_lengths, may_hold};
use crate::mask::Mask;
use crate::sector::EnclosedSector;
use crate::vector::Lengths;
use fixed_iv::{Enc, Iv, Side};
use lin_form::{Lin, Parts};

/// In how many of so many equal parts of the cell, from its start on, every direction at a range above 0 whose lengths are
/// covered is certainly above the mask (yes), and in how many below (no).
pub fn mask_parts(lengths: &Lengths<Lin>, mask: &Mask, parts: u64) -> Parts
    ensures most { (result.yes ≤ parts) × (result.no ≤ parts) }
    ensures yes { (h : Place) → IsAmongFirst h result.yes parts → EveryCovered IsAbove lengths.now mask.now h }
    ensures no { (h : Place) → IsAmongFirst h result.no parts → EveryCovered IsBelow lengths.now mask.now h }
{
    match judge_lengths(&ranges_of(lengths), mask) {
        Side::Yes => Parts { yes: parts, no: 0 },
        Side::No => Parts { yes: 0, no: parts },
        Side::Unsure => all_parts(lengths, mask.sectors(), parts),
    }
}

/// The lengths over the cell the other way round.
pub fn reversed(lengths: &Lengths<Lin>) -> Lengths<Lin>
    ensures { (h g : Place) (l : LengthsRecord) → g.at ≡ neg_ℚ h.at → CoverLengths lengths.now h l → CoverLengths result g l }
{
    Lengths {
        east: lengths.east.reversed(),
        north: lengths.north.reversed(),
        up: lengths.up.reversed(),
        range: lengths.range.reversed(),
    }
}

/// In how many parts the direction is above the floor of each sector that may hold it, and in how many below.
fn all_parts(lengths: &Lengths<Lin>, sectors: &[EnclosedSector], parts: u64) -> Parts
    ensures most { (result.yes ≤ parts) × (result.no ≤ parts) }
    ensures yes { (h : Place) → IsAmongFirst h result.yes parts → All (InSector AboveFloor lengths.now h) sectors.now }
    ensures no { (h : Place) → IsAmongFirst h result.no parts → All (InSector BelowFloor lengths.now h) sectors.now }
{
    let mut all = Parts {
        yes: parts,
        no: parts,
    };
    for sector in sectors {
        all = common(all, sector_parts(lengths, sector, parts));
    }
    all
}

/// The parts that both are certain of.
fn common(a: Parts, b: Parts) -> Parts
    ensures yes { (result.yes ≤ a.yes) × (result.yes ≤ b.yes) }
    ensures no { (result.no ≤ a.no) × (result.no ≤ b.no) }
{
    Parts {
        yes: a.yes.min(b.yes),
        no: a.no.min(b.no),
    }
}

/// In how many parts the direction is above the sector's floor wherever it holds it, and in how many below.
fn sector_parts(lengths: &Lengths<Lin>, sector: &EnclosedSector, parts: u64) -> Parts
    ensures most { (result.yes ≤ parts) × (result.no ≤ parts) }
    ensures yes { (h : Place) → IsAmongFirst h result.yes parts → InSector AboveFloor lengths.now h sector.now }
    ensures no { (h : Place) → IsAmongFirst h result.no parts → InSector BelowFloor lengths.now h sector.now }
{
    let elsewhere = parts_elsewhere(lengths, sector, parts);
    let over = over_floor(lengths, sector).sign_parts(parts);
    Parts {
        yes: over.yes.max(elsewhere),
        no: over.no.max(elsewhere),
    }
}

/// How far the satellite is over the sector's floor, as a length.
fn over_floor(lengths: &Lengths<Lin>, sector: &EnclosedSector) -> Lin
    ensures { (h : Place) (s : SectorSides) (l : LengthsRecord) → HoldSides sector.now s → CoverLengths lengths.now h l → IsCovered result h (l.up -ℚ s.floor *ℚ l.range) }
{
    let floor = Lin::constant(sector.sin_floor).times(lengths.range);
    lengths.up.minus(floor)
}

/// In how many parts the direction certainly lies outside the sector.
fn parts_elsewhere(lengths: &Lengths<Lin>, sector: &EnclosedSector, parts: u64) -> u64
    ensures most { result ≤ parts }
    ensures elsewhere { (h : Place) → IsAmongFirst h result parts → InSector IsElsewhere lengths.now h sector.now }
{
    if !may_hold(&ranges_of(lengths), sector) {
        return parts;
    }
    let (east, north) = (lengths.east, lengths.north);
    let past = cross(sector.cos_from, east, sector.sin_from, north);
    let short = cross(sector.sin_to, north, sector.cos_to, east);
    past.sign_parts(parts).no.max(short.sign_parts(parts).no)
}

/// The ranges of the lengths.
fn ranges_of(lengths: &Lengths<Lin>) -> Lengths<Iv>
    ensures { result ≡ record { east = lengths.now.east.range; north = lengths.now.north.range; up = lengths.now.up.range; range = lengths.now.range.range } }
{
    Lengths {
        east: lengths.east.range,
        north: lengths.north.range,
        up: lengths.up.range,
        range: lengths.range.range,
    }
}

/// The difference of two products: a cross product.
fn cross(a: Iv, b: Lin, c: Iv, d: Lin) -> Lin
    ensures { (h : Place) (x y z w : ℚ) → Holds a x → IsCovered b h y → Holds c z → IsCovered d h w → IsCovered result h (x *ℚ y -ℚ z *ℚ w) }
{
    let left = Lin::constant(a).times(b);
    left.minus(Lin::constant(c).times(d))
}
