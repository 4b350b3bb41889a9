//! A window of time.
ghost use Rattle.std.specs.Prelude.{◌≡◌};

use civil_time::Instant;
use std::marker::Model;

/// A stretch of time: where it starts, its length as a count of ticks of 100 microseconds, and how many ticks an
/// undecided span may be long.
#[derive(Clone, Copy, Debug)]
pub struct Window {
    start: Instant,
    ticks: u64,
    resolution: u64,
}

impl Model for Window {
    ghost use Rattle.elements.specs.Window.{WindowRecord, IsWindow};

    ghost Value = { WindowRecord };

    ghost view = { λ w. record { start = w.start; ticks = w.ticks; resolution = w.resolution } };

    ghost invariant = { λ w. IsWindow (record { start = w.start; ticks = w.ticks; resolution = w.resolution }) };

    ghost inverse = { λ w. record { start = w.start; ticks = w.ticks; resolution = w.resolution } };
}

impl Window {
    ghost use Rattle.elements.specs.Window.{IsWindow, tick_instant, tick_nanos};
    ghost use Rattle.std.specs.Prelude.{◌≤◌};

    /// The window of so many ticks from an instant, which is a whole number of ticks from 2000-01-01T12:00:00 UTC.
    /// The resolution is a whole number of seconds from 1 to 60, in ticks.
    pub fn make(start: Instant, ticks: u64, resolution: u64) -> Window
        requires { IsWindow (record { start = start; ticks = ticks; resolution = resolution }) }
        ensures { result ≡ record { start = start; ticks = ticks; resolution = resolution } }
    {
        Window {
            start,
            ticks,
            resolution,
        }
    }

    /// Where the window starts.
    pub fn start(self) -> Instant
        ensures value { result ≡ self.start }
        ensures window { IsWindow self }
    {
        self.start
    }

    /// How many ticks of 100 microseconds the window has.
    pub fn ticks(self) -> u64
        ensures value { result ≡ self.ticks }
        ensures window { IsWindow self }
    {
        self.ticks
    }

    /// How many ticks an undecided span may be long.
    pub fn resolution(self) -> u64
        ensures value { result ≡ self.resolution }
        ensures window { IsWindow self }
    {
        self.resolution
    }

    /// The instant of a tick of the window.
    pub fn instant_at(self, tick: u64) -> Instant
        requires { tick ≤ self.ticks }
        ensures { result ≡ tick_instant self.start tick }
    {
        Instant::from_nanos(self.start.nanos() + tick as i64 * 100_000)
    }

    /// Where the window ends.
    pub fn end(self) -> Instant
        ensures { result ≡ tick_instant self.start self.ticks }
    {
        let ticks = self.ticks;
        self.instant_at(ticks)
    }
}
