//! The judge of daylight at a place.
ghost use Rattle.std.specs.Prelude.{◌≡◌, ◌+◌, ◌<◌, ◌^◌};
ghost use Rattle.elements.specs.Offset.{IsOffset};
ghost use Rattle.fixed_iv.specs.Holds.{Holds};
ghost use Rattle.orbit_sight.specs.Daylight.{EachLight, day_of};
ghost use Rattle.sgp4_model.specs.Time.{Throughout};
ghost use Rattle.station_view.specs.Spot.{IsNoWider};

use crate::day_survey::day_survey;
use crate::daylight::light_over;
use crate::verdict::verdict_of;
use elements::Window;
use enc_plain::Plain;
use fixed_iv::{Enc, Iv};
use span_bisect::{Judge, Survey, Verdict};
use station_view::Spot;
use sun_shade::judge_light;

/// Ticks from which on the Earth turns too far for lines to tell where the Sun rises or sets: eight hours.
const LONG: u64 = 288_000_000;

/// Judges whether it is light at a place, where UT1 is `dut1_ms` milliseconds more than UTC. Yes: the Sun is above the
/// horizon. No: it is below.
#[derive(Clone, Copy)]
pub struct DayJudge<'a> {
    spot: &'a Spot,
    window: Window,
    dut1_ms: i32,
    pub ghost offset: { IsOffset dut1_ms },
}

impl<'a> DayJudge<'a> {
    /// The judge of a place over a window.
    pub fn make(spot: &'a Spot, window: Window, dut1_ms: i32) -> DayJudge<'a>
        requires { IsOffset dut1_ms }
        ensures spot { result.spot.now ≡ spot.now }
        ensures window { result.window ≡ window }
        ensures dut1_ms { result.dut1_ms ≡ dut1_ms }
    {
        DayJudge {
            spot,
            window,
            dut1_ms,
        }
    }

    /// The sine of the Sun's elevation over the closed least cell that begins at a tick.
    pub fn light_on(&self, tick: u64) -> Iv
        requires { tick < self.now.window.ticks }
        ensures holds { Throughout tick (tick + 1) (EachLight self.now.spot.now self.now.window.start self.now.dut1_ms (Holds result)) }
        ensures narrow { IsNoWider (2 ^ 25) result }
    {
        let light: Plain = light_over(self.spot, self.window.start(), self.dut1_ms, tick, tick + 1);
        light.bounds()
    }
}

impl<'a> Judge for DayJudge<'a> {
    ghost tick_count = { λ j. j.window.ticks };

    ghost yes_at = { λ j. (day_of j.spot.now j.window.start j.dut1_ms j.window.ticks).yes };

    ghost no_at = { λ j. (day_of j.spot.now j.window.start j.dut1_ms j.window.ticks).no };

    ghost grazes_at = { λ j. (day_of j.spot.now j.window.start j.dut1_ms j.window.ticks).grazes };

    // Nothing sinks.
    ghost sinks_at = { λ j. (day_of j.spot.now j.window.start j.dut1_ms j.window.ticks).sinks };

    fn ticks(&self) -> u64 {
        self.window.ticks()
    }

    fn judge(&self, from: u64, to: u64) -> Verdict {
        let light: Plain = light_over(self.spot, self.window.start(), self.dut1_ms, from, to);
        verdict_of(Some(judge_light(light.bounds())), false)
    }

    fn survey(&self, from: u64, to: u64) -> Survey {
        if to - from < LONG {
            return day_survey(self.spot, self.window.start(), self.dut1_ms, from, to);
        }
        Survey {
            first: self.judge(from, to),
            left: to,
            right: to,
            last: Verdict::Unsure,
        }
    }
}
