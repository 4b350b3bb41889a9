//! How far instants are from the epoch of an element set.
ghost use Rattle.std.specs.Prelude.{◌↔◌, IsTrue};
ghost use Rattle.elements.specs.Elements.{record_of_elements};
ghost use Rattle.elements.specs.Window.{tick_instant};
ghost use Rattle.sgp4_motion.specs.Fate.{IsAway, IsFar};

use crate::moment::nanos_from;
use elements::{Elements, Instant, Window};

/// Seven days, in nanoseconds.
const WEEK: u64 = 604_800_000_000_000;

/// Whether an instant is more than seven days from the epoch of a set.
fn is_away(set: &Elements, at: Instant) -> bool
    ensures { IsTrue result ↔ IsAway (record_of_elements set.now) at }
{
    nanos_from(set.epoch(), at).unsigned_abs() > WEEK
}

/// Whether an instant is more than seven days from the epoch of a set.
pub fn is_far_at(set: &Elements, at: Instant) -> bool
    ensures { IsTrue result ↔ IsFar (record_of_elements set.now) at at }
{
    is_away(set, at)
}

/// Whether an end of a window is more than seven days from the epoch of a set.
pub fn is_far(set: &Elements, window: &Window) -> bool
    ensures { IsTrue result ↔ IsFar (record_of_elements set.now) window.now.start (tick_instant window.now.start window.now.ticks) }
{
    is_away(set, window.start()) || is_away(set, window.end())
}
