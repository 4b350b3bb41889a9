//! The resolution of a window.
ghost use Rattle.std.specs.Prelude.{◌≡◌, IfOk};
ghost use Rattle.elements.specs.Window.{IsResolution};
ghost use Rattle.pass_words.specs.Resolution.{resolution_value};

use crate::digits::short_number;
use crate::fault::WindowFault;

/// A resolution in ticks, from one or two digits for 1 to 60 seconds.
pub(crate) fn resolution(text: &[u8]) -> Result<u64, WindowFault>
    ensures value { result ≡ resolution_value text.now }
    ensures range { IfOk result (λ ticks. IsResolution ticks) }
{
    match short_number(text) {
        Some(seconds @ 1..=60) => Ok(u64::from(seconds) * 10_000),
        _ => Err(WindowFault::Resolution),
    }
}
