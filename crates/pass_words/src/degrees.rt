//! Angles in degrees.
ghost use Rattle.std.specs.Prelude.{◌≡◌, ◌↔◌, IfOk, IsTrue};
ghost use Rattle.decimals.specs.Decimal.{value};
ghost use Rattle.elements.specs.Elements.{IsFromTo};
ghost use Rattle.elements.specs.Ranges.{is_from_to};
ghost use Rattle.pass_words.specs.Degrees.{degrees_read};

use crate::fault::UsageFault;
use crate::key::Opt;
use decimals::{Decimal, NumFault};

/// Whether a decimal lies between two whole numbers, both included.
fn is_from_to(number: Decimal, low: i32, high: i32) -> bool
    ensures value { result ≡ is_from_to low high number }
    ensures range { IsTrue result ↔ IsFromTo low high (value number) }
{
    number.is_between(low, high)
}

/// A decimal that was read, if it lies between the two whole numbers.
pub(crate) fn degrees_read(
    key: Opt,
    low: i32,
    high: i32,
    read: Result<Decimal, NumFault>,
) -> Result<Decimal, UsageFault>
    ensures value { result ≡ degrees_read key low high read }
    ensures range { IfOk result (λ degrees. IsFromTo low high (value degrees)) }
{
    match read {
        Ok(number) => {
            if is_from_to(number, low, high) {
                Ok(number)
            } else {
                Err(UsageFault::Value { key })
            }
        }
        Err(_) => Err(UsageFault::Value { key }),
    }
}
