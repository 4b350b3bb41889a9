//! What a direction is to an elevation mask, where it lies within bounds: as lengths at its range, or by itself.
ghost use Rattle.std.specs.Prelude.{◌≡◌, ◌^◌, ◌≤ℤ◌, ◌<ℤ◌, All, Any, IsTrue, pos};
ghost use Rattle.station_view.specs.Bounds.{IsCross};
ghost use Rattle.station_view.specs.Judged.{AboveThroughout, BelowThroughout, EveryDirection, EveryLengths, GrazesWhereNarrow, GrazesWithinLength, HoldsNowhere, IsHigh, IsLow, LiesInNone, MayHold};
ghost use Rattle.sgp4_model.specs.Mask.{IsAbove, IsBelow};

use crate::mask::Mask;
use crate::sector::EnclosedSector;
use crate::vector::{Lengths, Sight};
use fixed_iv::{Iv, Side};

/// What the directions in the bounds are to the mask. Yes: every one is above. No: every one is below. Unsure tells
/// something only of a narrow sight.
pub fn judge_mask(sight: &Sight<Iv>, mask: &Mask) -> Side
    ensures yes { result ≡ Side.Yes → EveryDirection IsAbove sight.now mask.now }
    ensures no { result ≡ Side.No → EveryDirection IsBelow sight.now mask.now }
    ensures unsure { result ≡ Side.Unsure → GrazesWhereNarrow sight.now mask.now }
    ensures in_none { LiesInNone sight.now.east sight.now.north mask.now → result ≡ Side.Yes }
{
    let lengths = Lengths {
        east: sight.east,
        north: sight.north,
        up: sight.up,
        range: one(),
    };
    judge_lengths(&lengths, mask)
}

/// What the directions at ranges above 0, whose lengths lie in the bounds, are to the mask. Yes: every one is above. No:
/// every one is below. Unsure tells something only of narrow lengths.
pub fn judge_lengths(lengths: &Lengths<Iv>, mask: &Mask) -> Side
    ensures yes { result ≡ Side.Yes → EveryLengths (λ range. IsAbove) lengths.now mask.now }
    ensures no { result ≡ Side.No → EveryLengths (λ range. IsBelow) lengths.now mask.now }
    ensures unsure { result ≡ Side.Unsure → GrazesWithinLength lengths.now mask.now }
    ensures in_none { LiesInNone lengths.now.east lengths.now.north mask.now → result ≡ Side.Yes }
{
    let sectors = mask.sectors();
    if are_below_up(lengths, sectors) {
        Side::Yes
    } else if are_above_up(lengths, sectors) {
        Side::No
    } else {
        Side::Unsure
    }
}

/// The number 1.
fn one() -> Iv
    ensures low { result.lo ≡ pos (2 ^ 48) }
    ensures high { result.hi ≡ pos (2 ^ 48) }
{
    Iv::from_ends(1 << 48, 1 << 48)
}

/// Whether `up` surely exceeds the floor's sine in each sector that may hold the direction.
fn are_below_up(lengths: &Lengths<Iv>, sectors: &[EnclosedSector]) -> bool
    ensures each { IsTrue result → All (AboveThroughout lengths.now) sectors.now }
    ensures some { ¬ IsTrue result → Any (IsLow lengths.now) sectors.now }
{
    for sector in sectors {
        if !is_below_up(lengths, sector) {
            return false;
        }
    }
    true
}

/// Whether `up` is surely less than the floor's sine in each sector that may hold the direction.
fn are_above_up(lengths: &Lengths<Iv>, sectors: &[EnclosedSector]) -> bool
    ensures each { IsTrue result → All (BelowThroughout lengths.now) sectors.now }
    ensures some { ¬ IsTrue result → Any (IsHigh lengths.now) sectors.now }
{
    for sector in sectors {
        if !is_above_up(lengths, sector) {
            return false;
        }
    }
    true
}

/// Whether `up` surely exceeds the floor's sine at the range, or the sector surely does not hold the direction.
fn is_below_up(lengths: &Lengths<Iv>, sector: &EnclosedSector) -> bool
    ensures sure { IsTrue result → AboveThroughout lengths.now sector.now }
    ensures unsure { ¬ IsTrue result → IsLow lengths.now sector.now }
{
    lies_below(sector.sin_floor * lengths.range, lengths.up) || !may_hold(lengths, sector)
}

/// Whether `up` is surely less than the floor's sine at the range, or the sector surely does not hold the direction.
fn is_above_up(lengths: &Lengths<Iv>, sector: &EnclosedSector) -> bool
    ensures sure { IsTrue result → BelowThroughout lengths.now sector.now }
    ensures unsure { ¬ IsTrue result → IsHigh lengths.now sector.now }
{
    lies_below(lengths.up, sector.sin_floor * lengths.range) || !may_hold(lengths, sector)
}

/// Whether the sector may hold the direction: no cross product is surely negative.
pub(crate) fn may_hold(lengths: &Lengths<Iv>, sector: &EnclosedSector) -> bool
    ensures may { IsTrue result → MayHold lengths.now sector.now }
    ensures not { ¬ IsTrue result → HoldsNowhere lengths.now sector.now }
{
    let past = cross(
        sector.cos_from,
        lengths.east,
        sector.sin_from,
        lengths.north,
    );
    let short = cross(sector.sin_to, lengths.north, sector.cos_to, lengths.east);
    reaches_0(past) && reaches_0(short)
}

/// The difference of two products: a cross product.
fn cross(a: Iv, b: Iv, c: Iv, d: Iv) -> Iv
    ensures { IsCross a b c d result }
{
    a * b - c * d
}

/// Whether the interval holds a number of at least 0.
fn reaches_0(v: Iv) -> bool
    ensures yes { IsTrue result → pos 0 ≤ℤ v.hi }
    ensures no { ¬ IsTrue result → v.hi <ℤ pos 0 }
{
    let (_, high) = v.ends();
    high >= 0
}

/// Whether the interval ends before the other begins.
fn lies_below(v: Iv, other: Iv) -> bool
    ensures yes { IsTrue result → v.hi <ℤ other.lo }
    ensures no { ¬ IsTrue result → other.lo ≤ℤ v.hi }
{
    let (_, high) = v.ends();
    let (low, _) = other.ends();
    high < low
}
