//! What a station sees over a cell of a window.
ghost use Rattle.std.specs.Prelude.{◌≡◌, ◌+◌, ◌<◌, ◌≤◌, IfSome, MatchOption, T};
ghost use Rattle.elements.specs.Offset.{IsOffset};
ghost use Rattle.elements.specs.Elements.{record_of_elements};
ghost use Rattle.orbit_sight.specs.Over.{EachPlaceHasAPosition, EachPositionIsFarOut, IsNearOver, cell_of};
ghost use Rattle.orbit_sight.specs.Scene.{CoversScene, IsLeastScene};

use crate::cell::time_over;
use crate::craft::{Craft, over};
use earth_frame::{Turn, sidereal};
use elements::Window;
use fixed_iv::{Enc, Vec3};

/// The Earth's turn, and the position of a satellite.
#[derive(Clone, Copy)]
pub(crate) struct Scene<E> {
    /// The sine and the cosine of the sidereal angle.
    pub turn: Turn<E>,
    /// In Earth radii, in the frame of the true equator and mean equinox (TEME).
    pub position: Vec3<E>,
}

/// The scene over the closed cell from one tick of a window to another, where UT1 is so many milliseconds more than UTC.
pub(crate) fn scene_over<E: Enc>(
    craft: &Craft,
    window: &Window,
    dut1_ms: i32,
    from: u64,
    to: u64,
) -> Option<Scene<E>>
    requires not_far { IsNearOver (record_of_elements craft.now) window.now.start window.now.ticks }
    requires offset { IsOffset dut1_ms }
    requires not_empty { from < to }
    requires inside { to ≤ window.now.ticks }
    ensures covers { IfSome result (CoversScene (record_of_elements craft.now) dut1_ms (cell_of window.now.start from to) E.Enc) }
    ensures exists { EachPlaceHasAPosition (record_of_elements craft.now) (cell_of window.now.start from to) }
    ensures far { EachPositionIsFarOut (record_of_elements craft.now) (cell_of window.now.start from to) }
    ensures least { T E.tells → to ≡ from + 1 → MatchOption result ⊥ (IsLeastScene (record_of_elements craft.now) dut1_ms (cell_of window.now.start from to) E.Enc) }
{
    let position = over(craft, window, from, to)?;
    let turn = sidereal(window.start(), dut1_ms, time_over(from, to));
    Some(Scene { turn, position })
}
