//! Catalogue numbers.
ghost use Rattle.std.specs.Prelude.{◌≡◌, ◌<◌, ◌^◌, IfOk};
ghost use Rattle.pass_words.specs.Number.{number_value};

use crate::digits::few_digits;
use crate::fault::UsageFault;
use crate::key::Opt;

/// The number that the value of a key writes in one to nine digits.
pub(crate) fn number(key: Opt, text: &[u8]) -> Result<u32, UsageFault>
    ensures value { result ≡ number_value key text.now }
    ensures range { IfOk result (λ number. number < 10 ^ 9) }
{
    match few_digits(text) {
        Some(number) => Ok(number),
        None => Err(UsageFault::Value { key }),
    }
}
