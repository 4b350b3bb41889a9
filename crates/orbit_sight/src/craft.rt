//! A satellite, ready to be placed.
ghost use Rattle.std.specs.Prelude.{◌≡◌, ◌+◌, ◌<◌, ◌≤◌, IfOk, IfErr, IfSome, IfNone, Err, MatchOption, T};
ghost use Rattle.elements.specs.Elements.{record_of_elements};
ghost use Rattle.orbit_sight.specs.Over.{CoversEachPosition, EachPlaceHasAPosition, EachPositionIsFarOut, IsNearOver, IsLeastPosition, cell_of};
ghost use Rattle.sgp4_model.specs.PositionAt.{IsPositionAt};
ghost use Rattle.sgp4_model.specs.Vector.{Vector};

use crate::bounded::bounded;
use crate::moment::time_from;
use crate::position::position_over;
use elements::{Elements, Instant, Window};
use enc_plain::Plain;
use fixed_iv::{Enc, Iv, Vec3};
use sgp4_drag::secular;
use sgp4_init::prepare;
use sgp4_periodic::place;
use sgp4_shape::{Consts, SatFault};
use std::marker::Model;

/// A satellite that is accepted: its element set, with the constants of its orbit.
#[derive(Drop)]
pub struct Craft {
    set: Elements,
    consts: Consts<Plain>,
}

impl Model for Craft {
    ghost use Rattle.elements.specs.Elements.{ElementsRecord};
    ghost use Rattle.orbit_sight.specs.Craft.{IsCraft};

    ghost Value = { ElementsRecord };

    ghost view = { λ craft. craft.set };

    ghost invariant = { λ craft. IsCraft craft.set craft.consts };
}

impl Craft {
    ghost use Rattle.orbit_sight.specs.Craft.{EncloseConsts, HoldConsts, HoldsEachPosition, IsBoundedVector, IsNarrowVector};
    ghost use Rattle.sgp4_model.specs.Time.{instant_of_nanos};
    ghost use Rattle.sgp4_motion.specs.Fate.{IsAway, IsBetweenLimits, IsNearEarth, IsOfOneForm, IsOrdinary, IsRefusedExactly, MayRefuseSet};

    /// The satellite of an element set, or why the set is refused.
    pub fn make(set: &Elements) -> Result<Craft, SatFault>
        ensures made { IfOk result (λ craft. craft ≡ set.now) }
        ensures accepted { IfOk result (λ _. IsOrdinary (record_of_elements set.now) × IsNearEarth (record_of_elements set.now)) }
        ensures between { IfOk result (λ _. IsBetweenLimits (record_of_elements set.now)) }
        ensures of_one_form { IfOk result (λ _. IsOfOneForm (record_of_elements set.now)) }
        ensures exact { IsRefusedExactly (record_of_elements set.now) (λ fault. result ≡ Err fault) }
        ensures refused { IfErr result (MayRefuseSet (record_of_elements set.now)) }
    {
        match prepare(set) {
            Ok(consts) => Ok(Craft { set: *set, consts }),
            Err(fault) => Err(fault),
        }
    }

    /// Its element set.
    pub fn set(&self) -> &Elements
        ensures { result.now ≡ self.now }
    {
        &self.set
    }

    /// The constants of its orbit: each record of constants of the set is enclosed, as narrowly as an accepted set's numerals say.
    pub fn consts(&self) -> &Consts<Plain>
        ensures enclosed { EncloseConsts self.now result.now }
        ensures held { HoldConsts self.now result.now }
    {
        &self.consts
    }

    /// Bounds of the position at an instant, in Earth radii, in the frame of the true equator and mean equinox (TEME). None
    /// only where the instant is more than seven days from the epoch.
    pub fn bounds_at(&self, at: Instant) -> Option<Vec3<Iv>>
        ensures holds { IfSome result (HoldsEachPosition (record_of_elements self.now) (instant_of_nanos at)) }
        ensures bounded { IfSome result IsBoundedVector }
        ensures narrow { IfSome result (λ v. (¬ IsAway (record_of_elements self.now) at) → IsNarrowVector 439804651 v) }
        ensures exists { (¬ IsAway (record_of_elements self.now) at) → (r : Vector) × IsPositionAt (record_of_elements self.now) (instant_of_nanos at) r }
        ensures none { IfNone result (IsAway (record_of_elements self.now) at) }
    {
        let time = Plain {
            iv: time_from(self.set.epoch(), at),
        };
        match secular(&self.consts, time) {
            Some(mean) => match place(&self.consts, &mean) {
                Some(position) => bounded(bounds_of(&position)),
                None => None,
            },
            None => None,
        }
    }
}

/// The position of a satellite over the closed cell from one tick of a window to another, in Earth radii, in the frame of the
/// true equator and mean equinox (TEME): at each place of the cell, from -1 at its first tick to 1 at its last, there is a position
/// of the set at that instant, and each one is covered and far out. An enclosure that tells its spread has an answer on each least
/// cell, and is narrow there.
pub fn over<E: Enc>(craft: &Craft, window: &Window, from: u64, to: u64) -> Option<Vec3<E>>
    requires not_far { IsNearOver (record_of_elements craft.now) window.now.start window.now.ticks }
    requires not_empty { from < to }
    requires inside { to ≤ window.now.ticks }
    ensures covers { IfSome result (CoversEachPosition (record_of_elements craft.now) (cell_of window.now.start from to) E.Enc) }
    ensures exists { EachPlaceHasAPosition (record_of_elements craft.now) (cell_of window.now.start from to) }
    ensures far { EachPositionIsFarOut (record_of_elements craft.now) (cell_of window.now.start from to) }
    ensures least { T E.tells → to ≡ from + 1 → MatchOption result ⊥ (IsLeastPosition (record_of_elements craft.now) (cell_of window.now.start from to) E.Enc) }
{
    position_over(&craft.set, &craft.consts, window.start(), from, to)
}

/// The bounds of three enclosures.
fn bounds_of(position: &Vec3<Plain>) -> Vec3<Iv>
    ensures { result ≡ record { x = position.now.x.iv; y = position.now.y.iv; z = position.now.z.iv } }
{
    Vec3 {
        x: position.x.bounds(),
        y: position.y.bounds(),
        z: position.z.bounds(),
    }
}
