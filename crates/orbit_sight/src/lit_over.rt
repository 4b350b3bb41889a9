//! Whether a satellite is sunlit over a cell of a window.
ghost use Rattle.std.specs.Prelude.{◌≡◌, ◌+◌, ◌<◌, ◌≤◌, IfSome, IsSome, MatchOption, T};
ghost use Rattle.elements.specs.Elements.{record_of_elements};
ghost use Rattle.orbit_sight.specs.Lit.{CoversEachLit, EachLitIsFarOut, EachPlaceHasALit, IsLeastShade, bounds_of, lit_of};
ghost use Rattle.orbit_sight.specs.Over.{IsNearOver, cell_of};
ghost use Rattle.sgp4_model.specs.Time.{Throughout};

use crate::cell::time_over;
use crate::craft::{Craft, over};
use earth_frame::sun_direction;
use elements::Window;
use fixed_iv::{Enc, Iv, Side};
use sun_shade::{Shade, judge_shade, shade};

/// The shadow's numbers of a satellite over the closed cell from one tick of a window to another. None where no enclosure of the
/// position is found.
pub(crate) fn shade_over<E: Enc>(
    craft: &Craft,
    window: &Window,
    from: u64,
    to: u64,
) -> Option<Shade<E>>
    requires not_far { IsNearOver (record_of_elements craft.now) window.now.start window.now.ticks }
    requires not_empty { from < to }
    requires inside { to ≤ window.now.ticks }
    ensures covers { IfSome result (CoversEachLit (record_of_elements craft.now) (cell_of window.now.start from to) E.Enc) }
    ensures exists { EachPlaceHasALit (record_of_elements craft.now) (cell_of window.now.start from to) }
    ensures far { EachLitIsFarOut (record_of_elements craft.now) (cell_of window.now.start from to) }
    ensures least { T E.tells → to ≡ from + 1 → MatchOption result ⊥ (IsLeastShade E.Enc) }
{
    let position = over(craft, window, from, to)?;
    let sun = sun_direction(window.start(), time_over(from, to));
    Some(shade(&position, &sun))
}

/// Whether every lit solution of a satellite is sunlit, or every one dark, over the closed cell from one tick of a window to
/// another. None where no enclosure of the position is found.
pub(crate) fn lit_over<E: Enc>(craft: &Craft, window: &Window, from: u64, to: u64) -> Option<Side>
    requires not_far { IsNearOver (record_of_elements craft.now) window.now.start window.now.ticks }
    requires not_empty { from < to }
    requires inside { to ≤ window.now.ticks }
    ensures yes { result ≡ Some Side.Yes → Throughout from to (lit_of craft.now window.now).yes }
    ensures no { result ≡ Some Side.No → Throughout from to (lit_of craft.now window.now).no }
    ensures unsure { T E.tells → to ≡ from + 1 → result ≡ Some Side.Unsure → Throughout from to (lit_of craft.now window.now).grazes }
    ensures least { T E.tells → to ≡ from + 1 → IsSome result }
{
    let found = shade_over::<E>(craft, window, from, to)?;
    Some(judge_shade(&ends_of(&found)))
}

/// The bounds of enclosed numbers.
pub(crate) fn ends_of<E: Enc>(found: &Shade<E>) -> Shade<Iv>
    ensures { result ≡ bounds_of E.Enc found.now }
{
    Shade {
        p: found.p.bounds(),
        g: found.g.bounds(),
    }
}
