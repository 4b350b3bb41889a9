//! Whether numbers that lie within bounds are those of light or of shadow.
ghost use Rattle.std.specs.Prelude.{◌≡◌, ◌↔◌, ◌<ℤ◌, ◌≤ℤ◌, IsTrue, pos};
ghost use Rattle.sgp4_model.specs.Light.{IsDark, IsSunlit};
ghost use Rattle.sun_shade.specs.Judged.{IsUndecided, OfBounds};

use crate::vector::Shade;
use fixed_iv::{Iv, Side};

/// What the numbers in the bounds are. Yes: all are sunlit. No: all are dark. Unsure: the bounds decide neither.
pub fn judge_shade(shade: &Shade<Iv>) -> Side
    ensures yes { result ≡ Side.Yes → OfBounds shade.now IsSunlit }
    ensures no { result ≡ Side.No → OfBounds shade.now IsDark }
    ensures unsure { result ≡ Side.Unsure → IsUndecided shade.now }
{
    if is_above_0(shade.p) || is_above_0(shade.g) {
        Side::Yes
    } else if is_below_0(shade.p) && is_below_0(shade.g) {
        Side::No
    } else {
        Side::Unsure
    }
}

/// What the heights of the Sun in the bounds are, as sines of its elevation. Yes: all are above the horizon. No: all are below
/// it. Unsure: the bounds hold 0.
pub fn judge_light(height: Iv) -> Side
    ensures yes { result ≡ Side.Yes → pos 0 <ℤ height.lo }
    ensures no { result ≡ Side.No → height.hi <ℤ pos 0 }
    ensures unsure { result ≡ Side.Unsure → (height.lo ≤ℤ pos 0) × (pos 0 ≤ℤ height.hi) }
{
    if is_above_0(height) {
        Side::Yes
    } else if is_below_0(height) {
        Side::No
    } else {
        Side::Unsure
    }
}

/// Whether the interval lies above 0.
fn is_above_0(v: Iv) -> bool
    ensures { IsTrue result ↔ pos 0 <ℤ v.lo }
{
    v.lo > 0
}

/// Whether the interval lies below 0.
fn is_below_0(v: Iv) -> bool
    ensures { IsTrue result ↔ v.hi <ℤ pos 0 }
{
    v.hi < 0
}
