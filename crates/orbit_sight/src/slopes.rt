//! On which cells slopes are of use.
ghost use Rattle.std.specs.Prelude.{◌<◌, IsTrue};

/// Ticks from which on a satellite turns too far for its lines to tell more than intervals do: some seven minutes.
const LONG: u64 = 1 << 22;

/// Whether the enclosure with slopes tells enough over so many ticks to pay for its work. It tells no spread, so that a
/// least cell needs the plain one.
pub(crate) fn are_slopes_of_use(ticks: u64) -> bool
    ensures { IsTrue result → 1 < ticks }
{
    ticks > 1 && ticks < LONG
}

/// Ticks from which on no enclosure tells whether a satellite is sunlit: some 14 minutes, in which a low one goes a seventh of
/// its way round.
const VAST: u64 = 1 << 23;

/// Whether a cell of so many ticks is not worth a look at the shadow.
pub(crate) fn is_vast(ticks: u64) -> bool {
    ticks >= VAST
}
