//! What is certain of a satellite's sunlight from both ends of a cell.
ghost use Rattle.std.specs.Prelude.{◌≡◌, ◌+◌, ◌<◌, ◌≤◌};
ghost use Rattle.elements.specs.Elements.{record_of_elements};
ghost use Rattle.fixed_iv.specs.Place.{Place};
ghost use Rattle.lin_form.specs.Covered.{IsCovered};
ghost use Rattle.lin_form.specs.Parts.{IsAmongFirst};
ghost use Rattle.exact.specs.Rational.{neg_ℚ};
ghost use Rattle.orbit_sight.specs.Lit.{CoverShadow, lit_of};
ghost use Rattle.orbit_sight.specs.Over.{IsNearOver};
ghost use Rattle.sgp4_model.specs.Light.{IsDark, IsSunlit, ShadowRecord};
ghost use Rattle.sgp4_model.specs.Time.{Throughout};

use crate::craft::Craft;
use crate::lit_over::shade_over;
use crate::survey::survey_of;
use elements::Window;
use lin_form::{Lin, Parts};
use span_bisect::{Survey, Verdict};
use sun_shade::Shade;

/// What is certain of a satellite's sunlight from both ends of the closed cell from one tick of a window to another.
pub(crate) fn lit_survey(craft: &Craft, window: &Window, from: u64, to: u64) -> Survey
    requires not_far { IsNearOver (record_of_elements craft.now) window.now.start window.now.ticks }
    requires longer { from + 1 < to }
    requires inside { to ≤ window.now.ticks }
    ensures left { (from ≤ result.left) × (result.left ≤ result.right) }
    ensures right { (from < result.right) × (result.right ≤ to) }
    ensures first_yes { result.first ≡ Verdict.Yes → Throughout from result.left (lit_of craft.now window.now).yes }
    ensures first_no { result.first ≡ Verdict.No → Throughout from result.left (lit_of craft.now window.now).no }
    ensures last_yes { result.last ≡ Verdict.Yes → Throughout result.right to (lit_of craft.now window.now).yes }
    ensures last_no { result.last ≡ Verdict.No → Throughout result.right to (lit_of craft.now window.now).no }
{
    let ticks = to - from;
    match shade_over::<Lin>(craft, window, from, to) {
        Some(found) => {
            let first = lit_parts(&found, ticks);
            let last = lit_parts(&reversed(&found), ticks);
            survey_of(from, to, first, last)
        }
        None => survey_of(from, to, Parts { yes: 0, no: 0 }, Parts { yes: 0, no: 0 }),
    }
}

/// In how many of so many equal parts of the cell, from its start on, a satellite with these numbers is certainly sunlit (yes), and
/// in how many dark (no).
fn lit_parts(found: &Shade<Lin>, parts: u64) -> Parts
    ensures most { (result.yes ≤ parts) × (result.no ≤ parts) }
    ensures yes { (h : Place) (v : ShadowRecord) → CoverShadow found.now h v → IsAmongFirst h result.yes parts → IsSunlit v }
    ensures no { (h : Place) (v : ShadowRecord) → CoverShadow found.now h v → IsAmongFirst h result.no parts → IsDark v }
{
    let depth = found.p.sign_parts(parts);
    let height = found.g.sign_parts(parts);
    Parts {
        yes: depth.yes.max(height.yes),
        no: depth.no.min(height.no),
    }
}

/// The shadow's numbers over the cell the other way round.
fn reversed(found: &Shade<Lin>) -> Shade<Lin>
    ensures { (h g : Place) (v : ShadowRecord) → g.at ≡ neg_ℚ h.at → CoverShadow found.now h v → CoverShadow result g v }
{
    Shade {
        p: found.p.reversed(),
        g: found.g.reversed(),
    }
}
