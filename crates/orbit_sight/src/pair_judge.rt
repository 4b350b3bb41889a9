//! The judges of a satellite and a station.
ghost use Rattle.std.specs.Prelude.{◌≡◌, IfNone, IfSome, IsSome, ◌+◌, ◌<◌};
ghost use Rattle.elements.specs.Offset.{IsOffset};
ghost use Rattle.elements.specs.Elements.{record_of_elements};
ghost use Rattle.orbit_sight.specs.Over.{IsNearOver};
ghost use Rattle.orbit_sight.specs.Pairs.{HoldsEachSight, track_of};
ghost use Rattle.sgp4_model.specs.Numerals.{decimal};
ghost use Rattle.sgp4_model.specs.Time.{Somewhere};
ghost use Rattle.station_view.specs.Judged.{IsNarrowSight};

use crate::craft::Craft;
use crate::pair_survey::pair_survey;
use crate::side_over::side_over;
use crate::slopes::are_slopes_of_use;
use crate::verdict::verdict_of;
use crate::verdict_over::{sight_at, verdict_over};
use elements::Window;
use enc_plain::Plain;
use fixed_iv::Iv;
use lin_form::Lin;
use span_bisect::{Judge, Survey, Verdict};
use station_view::{Sight, Station};

/// Judges on which side of a station's mask a satellite is, where UT1 is `dut1_ms` milliseconds more than UTC. Yes: above.
/// No: below.
#[derive(Clone, Copy)]
pub struct PairJudge<'a> {
    craft: &'a Craft,
    station: &'a Station,
    window: Window,
    dut1_ms: i32,
    pub ghost near: { IsNearOver (record_of_elements craft.now) window.start window.ticks },
    pub ghost offset: { IsOffset dut1_ms },
}

impl<'a> PairJudge<'a> {
    /// The judge of a satellite and a station over a window.
    pub fn make(
        craft: &'a Craft,
        station: &'a Station,
        window: Window,
        dut1_ms: i32,
    ) -> PairJudge<'a>
        requires not_far { IsNearOver (record_of_elements craft.now) window.start window.ticks }
        requires offset { IsOffset dut1_ms }
        ensures craft { result.craft.now ≡ craft.now }
        ensures station { result.station.now ≡ station.now }
        ensures window { result.window ≡ window }
        ensures dut1_ms { result.dut1_ms ≡ dut1_ms }
    {
        PairJudge {
            craft,
            station,
            window,
            dut1_ms,
        }
    }

    /// The direction of the satellite over the closed least cell that begins at a tick. None only where some record of its set
    /// sinks in it.
    pub fn sight_on(&self, tick: u64) -> Option<Sight<Iv>>
        requires { tick < self.now.window.ticks }
        ensures holds { IfSome result (HoldsEachSight self.now.craft.now self.now.station.now self.now.window self.now.dut1_ms tick) }
        ensures narrow { IfSome result (λ sight. IsNarrowSight (decimal 1 3) sight self.now.station.now.mask) }
        ensures none { IfNone result (Somewhere tick (tick + 1) (track_of self.now.craft.now self.now.station.now self.now.window self.now.dut1_ms).sinks) }
        ensures found { IsSome result }
    {
        sight_at(self.craft, self.station, &self.window, self.dut1_ms, tick)
    }
}

impl<'a> Judge for PairJudge<'a> {
    ghost tick_count = { λ j. j.window.ticks };

    ghost yes_at = { λ j. (track_of j.craft.now j.station.now j.window j.dut1_ms).yes };

    ghost no_at = { λ j. (track_of j.craft.now j.station.now j.window j.dut1_ms).no };

    ghost grazes_at = { λ j. (track_of j.craft.now j.station.now j.window j.dut1_ms).grazes };

    ghost sinks_at = { λ j. (track_of j.craft.now j.station.now j.window j.dut1_ms).sinks };

    fn ticks(&self) -> u64 {
        self.window.ticks()
    }

    fn judge(&self, from: u64, to: u64) -> Verdict {
        let (craft, station, window) = (self.craft, self.station, &self.window);
        if are_slopes_of_use(to - from) {
            let side = side_over::<Lin>(craft, station, window, self.dut1_ms, from, to);
            return verdict_of(side, false);
        }
        verdict_over::<Plain>(craft, station, window, self.dut1_ms, from, to)
    }

    fn survey(&self, from: u64, to: u64) -> Survey {
        if are_slopes_of_use(to - from) {
            return pair_survey(
                self.craft,
                self.station,
                &self.window,
                self.dut1_ms,
                from,
                to,
            );
        }
        Survey {
            first: self.judge(from, to),
            left: to,
            right: to,
            last: Verdict::Unsure,
        }
    }
}

/// The same judge with plain enclosures on cells of every length.
#[derive(Clone, Copy)]
pub struct PlainPairJudge<'a> {
    craft: &'a Craft,
    station: &'a Station,
    window: Window,
    dut1_ms: i32,
    pub ghost near: { IsNearOver (record_of_elements craft.now) window.start window.ticks },
    pub ghost offset: { IsOffset dut1_ms },
}

impl<'a> PlainPairJudge<'a> {
    /// The judge of a satellite and a station over a window.
    pub fn make(
        craft: &'a Craft,
        station: &'a Station,
        window: Window,
        dut1_ms: i32,
    ) -> PlainPairJudge<'a>
        requires not_far { IsNearOver (record_of_elements craft.now) window.start window.ticks }
        requires offset { IsOffset dut1_ms }
        ensures craft { result.craft.now ≡ craft.now }
        ensures station { result.station.now ≡ station.now }
        ensures window { result.window ≡ window }
        ensures dut1_ms { result.dut1_ms ≡ dut1_ms }
    {
        PlainPairJudge {
            craft,
            station,
            window,
            dut1_ms,
        }
    }
}

impl<'a> Judge for PlainPairJudge<'a> {
    ghost tick_count = { λ j. j.window.ticks };

    ghost yes_at = { λ j. (track_of j.craft.now j.station.now j.window j.dut1_ms).yes };

    ghost no_at = { λ j. (track_of j.craft.now j.station.now j.window j.dut1_ms).no };

    ghost grazes_at = { λ j. (track_of j.craft.now j.station.now j.window j.dut1_ms).grazes };

    ghost sinks_at = { λ j. (track_of j.craft.now j.station.now j.window j.dut1_ms).sinks };

    fn ticks(&self) -> u64 {
        self.window.ticks()
    }

    fn judge(&self, from: u64, to: u64) -> Verdict {
        verdict_over::<Plain>(
            self.craft,
            self.station,
            &self.window,
            self.dut1_ms,
            from,
            to,
        )
    }
}
