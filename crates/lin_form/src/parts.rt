//! How far from the start of the cell a quantity is certainly above 0.
ghost use Rattle.std.specs.Prelude.{◌≤◌, ◌<◌, ◌<ℤ◌, pos};
ghost use Rattle.lin_form.specs.Parts.{IsAboveAfter};

use crate::Lin;
use fixed_iv::Enc;

/// In how many parts of a cell, from one end on, yes is certain, and in how many no.
#[derive(Clone, Copy)]
pub struct Parts {
    pub yes: u64,
    pub no: u64,
}

impl Lin {
    ghost use Rattle.std.specs.Prelude.{◌≡◌, ◌≤◌, ◌<ℤ◌, pos};
    ghost use Rattle.exact.specs.Rational.{ℚ, neg_ℚ, zero_ℚ, ◌<ℚ◌};
    ghost use Rattle.fixed_iv.specs.Place.{Place};
    ghost use Rattle.lin_form.specs.Covered.{IsCovered};
    ghost use Rattle.lin_form.specs.Parts.{IsAmongFirst};

    /// The quantity over the cell that runs from the end of this one to its start.
    pub fn reversed(self) -> Lin
        ensures { (h g : Place) (x : ℚ) → g.at ≡ neg_ℚ h.at → IsCovered self h x → IsCovered result g x }
    {
        Lin {
            centre: self.centre,
            slope: -self.slope,
            range: self.range,
        }
    }

    /// In how many of so many equal parts of the cell, from its start on, the quantity is certainly above 0 (yes), and in how many
    /// below (no).
    pub fn sign_parts(self, parts: u64) -> Parts
        ensures most { (result.yes ≤ parts) × (result.no ≤ parts) }
        ensures yes { (h : Place) (x : ℚ) → IsCovered self h x → IsAmongFirst h result.yes parts → zero_ℚ <ℚ x }
        ensures no { (h : Place) (x : ℚ) → IsCovered self h x → IsAmongFirst h result.no parts → x <ℚ zero_ℚ }
    {
        Parts {
            yes: self.parts_above_0(parts),
            no: self.negate().parts_above_0(parts),
        }
    }

    /// How many of so many equal parts of the cell, from its start on, certainly have the quantity above 0.
    pub fn parts_above_0(self, parts: u64) -> u64
        ensures most { result ≤ parts }
        ensures above { (h : Place) (x : ℚ) → IsCovered self h x → IsAmongFirst h result parts → zero_ℚ <ℚ x }
        ensures all { pos 0 <ℤ self.range.lo → result ≡ parts }
    {
        if self.range.lo > 0 {
            return parts;
        }
        let (low, slope) = (self.centre.lo, self.slope);
        if !self.centre.is_bounded() || !slope.is_bounded() || low <= slope.hi {
            return 0;
        }
        if low <= 0 {
            return parts_before_0(low, slope.hi, parts);
        }
        if slope.lo >= 0 {
            return parts;
        }
        parts_before_0(low, slope.lo, parts)
    }
}

/// How many of so many equal parts of the cell, from its start on, a falling line with this middle and slope is above 0 to the
/// end of.
fn parts_before_0(middle: i64, slope: i64, parts: u64) -> u64
    requires falls { slope <ℤ pos 0 }
    requires begins { slope <ℤ middle }
    ensures most { result ≤ parts }
    ensures above { 0 < result → IsAboveAfter middle slope result parts }
{
    if parts == 0 {
        return 0;
    }
    let height = u128::from(middle.abs_diff(slope)) * u128::from(parts);
    let fall = 2 * u128::from(slope.unsigned_abs());
    let count = (height - 1) / fall;
    if count < u128::from(parts) {
        count as u64
    } else {
        parts
    }
}
