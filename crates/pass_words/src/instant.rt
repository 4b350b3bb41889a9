//! Instants that no window is made of.
ghost use Rattle.std.specs.Prelude.{◌≡◌};
ghost use Rattle.pass_words.specs.Instants.{instant_read};

use crate::fault::WindowFault;
use civil_time::TimeFault;
use elements::Instant;

/// An instant that was read. A day that does not exist is a fault of the shape.
pub(crate) fn instant_read(read: Result<Instant, TimeFault>) -> Result<Instant, WindowFault>
    ensures { result ≡ instant_read read }
{
    match read {
        Ok(instant) => Ok(instant),
        Err(TimeFault::Shape) => Err(WindowFault::Shape),
        Err(TimeFault::NotADay) => Err(WindowFault::Shape),
        Err(TimeFault::Year) => Err(WindowFault::Year),
    }
}
