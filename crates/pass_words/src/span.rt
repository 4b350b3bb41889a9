//! The window between two instants.
ghost use Rattle.std.specs.Prelude.{◌≡◌};
ghost use Rattle.elements.specs.Window.{IsWholeTick};
ghost use Rattle.pass_words.specs.Span.{is_whole_tick, span_value};

use crate::fault::WindowFault;
use crate::resolution::resolution;
use elements::{Instant, Window};

/// The nanoseconds of a tick.
const TICK: u64 = 100_000;

/// The nanoseconds of ten days.
const LONGEST: i64 = 864_000_000_000_000;

/// Whether an instant is a whole number of ticks from 2000-01-01T12:00:00 UTC.
pub(crate) fn is_whole_tick(instant: Instant) -> bool
    ensures { result ≡ is_whole_tick instant }
{
    instant.nanos().unsigned_abs() % TICK == 0
}

/// The window from a start to an end, with this word for its resolution.
pub(crate) fn span(start: Instant, end: Instant, res: &[u8]) -> Result<Window, WindowFault>
    requires whole_start { IsWholeTick start }
    requires whole_end { IsWholeTick end }
    ensures { result ≡ span_value start end res.now }
{
    let (from, to) = (start.nanos(), end.nanos());
    if to <= from {
        return Err(WindowFault::Order);
    }
    if to - from > LONGEST {
        return Err(WindowFault::Long);
    }
    let resolution = resolution(res)?;
    Ok(Window::make(start, to.abs_diff(from) / TICK, resolution))
}
