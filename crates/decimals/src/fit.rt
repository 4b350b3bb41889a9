//! The decimal of digits, if there is one.
ghost use Rattle.std.specs.Prelude.{◌≡◌, ℕ, ◌+◌, ◌%◌, ◌<◌, ◌≤◌, ◌^◌, pos, ◌-ℤ◌, ◌+ℤ◌};
ghost use Rattle.decimals.specs.DecimalText.{as_decimal};
ghost use Rattle.decimals.specs.Normal.{signed};
ghost use Rattle.decimals.specs.Significant.{Keeps, zeros_of};

use crate::exponent::Exponent;
use crate::order::power_of_ten;
use crate::significant::{Significant, TOO_LARGE};
use crate::{Decimal, NumFault};

/// The number that the digits write, with its point `places` places from the end and then moved by the exponent.
pub(crate) fn fit(
    minus: bool,
    digits: Significant,
    places: usize,
    exponent: Exponent,
) -> Result<Decimal, NumFault>
    requires { (n : ℕ) × Keeps digits n }
    ensures { (n : ℕ) → Keeps digits n → result ≡ as_decimal minus n (signed exponent.minus exponent.size -ℤ pos places) }
{
    match digits {
        Significant::Long => Err(NumFault::TooFine),
        Significant::Short {
            digits: 0,
            zeros: _,
        } => Ok(Decimal::whole(0)),
        Significant::Short { digits, zeros } => {
            let (up, down) = exponent.parts();
            shifted(
                minus,
                digits,
                u128::from(zeros) + u128::from(up),
                places as u128 + u128::from(down),
            )
        }
    }
}

/// The decimal `digits * 10^up / 10^down`.
fn shifted(minus: bool, digits: u64, up: u128, down: u128) -> Result<Decimal, NumFault>
    requires size { digits < 10 ^ 18 }
    requires last_digit { ¬ (digits % 10 ≡ 0) }
    ensures { result ≡ as_decimal minus digits (pos up -ℤ pos down) }
{
    if up < down {
        let places = down - up;
        if places > 18 {
            return Err(NumFault::TooFine);
        }
        return Ok(Decimal::of_parts(minus, digits, places as u8));
    }
    let zeros = up - down;
    if zeros > 17 {
        return Err(NumFault::TooFine);
    }
    let size = u128::from(digits) * u128::from(power_of_ten(zeros as u8));
    if size < TOO_LARGE {
        Ok(Decimal::of_parts(minus, size as u64, 0))
    } else {
        Err(NumFault::TooFine)
    }
}
