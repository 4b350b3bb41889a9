//! The window that three words make.
ghost use Rattle.std.specs.Prelude.{◌≡◌};
ghost use Rattle.pass_words.specs.Moment.{moment_read, moments_read};
ghost use Rattle.pass_words.specs.Windows.{window_value};

use crate::fault::WindowFault;
use crate::span::{is_whole_tick, span};
use civil_time::{TimeFault, read_utc};
use elements::{Instant, Window};

/// An instant that was read, if it is a whole number of ticks.
fn moment_read(read: Result<Instant, TimeFault>) -> Result<Instant, WindowFault>
    ensures { result ≡ moment_read read }
{
    match read {
        Ok(instant) => {
            if is_whole_tick(instant) {
                Ok(instant)
            } else {
                Err(WindowFault::Shape)
            }
        }
        Err(TimeFault::Shape) => Err(WindowFault::Shape),
        Err(TimeFault::NotADay) => Err(WindowFault::Shape),
        Err(TimeFault::Year) => Err(WindowFault::Year),
    }
}

/// A start and an end, or their first fault by kind.
fn moments_read(
    start: Result<Instant, WindowFault>,
    last: Result<Instant, WindowFault>,
) -> Result<(Instant, Instant), WindowFault>
    ensures { result ≡ moments_read start last }
{
    match (start, last) {
        (Ok(start), Ok(last)) => Ok((start, last)),
        (Err(WindowFault::Shape), _) => Err(WindowFault::Shape),
        (_, Err(WindowFault::Shape)) => Err(WindowFault::Shape),
        (Err(fault), _) => Err(fault),
        (_, Err(fault)) => Err(fault),
    }
}

/// The window of these words for its start, its end and its resolution, or its first fault by kind.
pub(crate) fn window(start: &[u8], last: &[u8], res: &[u8]) -> Result<Window, WindowFault>
    ensures { result ≡ window_value start.now last.now res.now }
{
    let (start, last) = moments_read(moment_read(read_utc(start)), moment_read(read_utc(last)))?;
    span(start, last, res)
}
