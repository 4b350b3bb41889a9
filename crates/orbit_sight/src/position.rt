//! The position of a satellite over a cell of a window.
ghost use Rattle.std.specs.Prelude.{◌≡◌, ◌+◌, ◌<◌, ◌≤◌, IfSome, MatchOption, T};
ghost use Rattle.elements.specs.Elements.{record_of_elements};
ghost use Rattle.elements.specs.Window.{most_ticks, tick_instant};
ghost use Rattle.orbit_sight.specs.Craft.{IsCraft};
ghost use Rattle.orbit_sight.specs.Over.{CoversEachPosition, EachPlaceHasAPosition, EachPositionIsFarOut, IsLeastPosition, cell_of};
ghost use Rattle.sgp4_motion.specs.Fate.{IsAway};

use crate::cell::time_over;
use crate::moment::time_from;
use elements::{Elements, Instant};
use enc_plain::Plain;
use fixed_iv::{Enc, Vec3};
use sgp4_drag::secular;
use sgp4_periodic::place;
use sgp4_shape::{Consts, lift};

/// The position of a set over the closed cell from one tick of a window to another, from enclosures of its constants.
pub(crate) fn position_over<E: Enc>(
    set: &Elements,
    consts: &Consts<Plain>,
    start: Instant,
    from: u64,
    to: u64,
) -> Option<Vec3<E>>
    requires craft { IsCraft set.now consts.now }
    requires not_empty { from < to }
    requires inside { to ≤ most_ticks }
    requires near_start { ¬ IsAway (record_of_elements set.now) start }
    requires near_cell { ¬ IsAway (record_of_elements set.now) (tick_instant start from) }
    requires near_end { ¬ IsAway (record_of_elements set.now) (tick_instant start to) }
    ensures covers { IfSome result (CoversEachPosition (record_of_elements set.now) (cell_of start from to) E.Enc) }
    ensures exists { EachPlaceHasAPosition (record_of_elements set.now) (cell_of start from to) }
    ensures far { EachPositionIsFarOut (record_of_elements set.now) (cell_of start from to) }
    ensures least { T E.tells → to ≡ from + 1 → MatchOption result ⊥ (IsLeastPosition (record_of_elements set.now) (cell_of start from to) E.Enc) }
{
    let shift = E::constant(time_from(set.epoch(), start));
    let time = shift.plus(time_over(from, to));
    let lifted: Consts<E> = lift(consts);
    match secular(&lifted, time) {
        Some(mean) => place(&lifted, &mean),
        None => None,
    }
}
