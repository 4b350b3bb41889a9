//! The judge of a satellite's sunlight.
ghost use Rattle.std.specs.Prelude.{◌≡◌, ◌+◌, ◌<◌, IfNone, IfSome, IsSome};
ghost use Rattle.elements.specs.Elements.{record_of_elements};
ghost use Rattle.orbit_sight.specs.Lit.{AreNarrow, HoldsEachLit, lit_of};
ghost use Rattle.orbit_sight.specs.Over.{IsNearOver};
ghost use Rattle.sgp4_model.specs.Time.{Somewhere};

use crate::craft::Craft;
use crate::lit_over::{ends_of, lit_over, shade_over};
use crate::lit_survey::lit_survey;
use crate::slopes::{are_slopes_of_use, is_vast};
use crate::verdict::verdict_of;
use elements::Window;
use enc_plain::Plain;
use fixed_iv::Iv;
use lin_form::Lin;
use span_bisect::{Judge, Survey, Verdict};
use sun_shade::Shade;

/// Judges whether a satellite is in sunlight. Yes: before the Earth's centre or outside of its shadow. No: in the shadow.
#[derive(Clone, Copy)]
pub struct LitJudge<'a> {
    craft: &'a Craft,
    window: Window,
    pub ghost not_far: { IsNearOver (record_of_elements craft.now) window.start window.ticks },
}

impl<'a> LitJudge<'a> {
    /// The judge of a satellite over a window.
    pub fn make(craft: &'a Craft, window: Window) -> LitJudge<'a>
        requires { IsNearOver (record_of_elements craft.now) window.start window.ticks }
        ensures craft { result.craft.now ≡ craft.now }
        ensures window { result.window ≡ window }
    {
        LitJudge { craft, window }
    }

    /// The shadow's numbers over the closed least cell that begins at a tick. None only where some record of the set sinks in it.
    pub fn shade_on(&self, tick: u64) -> Option<Shade<Iv>>
        requires { tick < self.now.window.ticks }
        ensures holds { IfSome result (HoldsEachLit self.now.craft.now self.now.window tick) }
        ensures narrow { IfSome result AreNarrow }
        ensures none { IfNone result (Somewhere tick (tick + 1) (lit_of self.now.craft.now self.now.window).sinks) }
        ensures found { IsSome result }
    {
        let found = shade_over::<Plain>(self.craft, &self.window, tick, tick + 1)?;
        Some(ends_of(&found))
    }
}

impl<'a> Judge for LitJudge<'a> {
    ghost tick_count = { λ j. j.window.ticks };

    ghost yes_at = { λ j. (lit_of j.craft.now j.window).yes };

    ghost no_at = { λ j. (lit_of j.craft.now j.window).no };

    ghost grazes_at = { λ j. (lit_of j.craft.now j.window).grazes };

    ghost sinks_at = { λ j. (lit_of j.craft.now j.window).sinks };

    fn ticks(&self) -> u64 {
        self.window.ticks()
    }

    fn judge(&self, from: u64, to: u64) -> Verdict {
        if are_slopes_of_use(to - from) {
            return verdict_of(lit_over::<Lin>(self.craft, &self.window, from, to), false);
        }
        let side = lit_over::<Plain>(self.craft, &self.window, from, to);
        verdict_of(side, to - from == 1)
    }

    fn survey(&self, from: u64, to: u64) -> Survey {
        if are_slopes_of_use(to - from) {
            return lit_survey(self.craft, &self.window, from, to);
        }
        let first = if is_vast(to - from) {
            Verdict::Unsure
        } else {
            self.judge(from, to)
        };
        Survey {
            first,
            left: to,
            right: to,
            last: Verdict::Unsure,
        }
    }
}
