//! What an element set gives, as intervals and as enclosures.
ghost use Rattle.std.specs.Prelude.{◌≡◌, ◌<◌, ◌≤◌, ◌^◌, pos};
ghost use Rattle.decimals.specs.Decimal.{value};
ghost use Rattle.exact.specs.Rational.{◌*ℚ◌, ◌/ℚ◌, ◌<ℚ◌, ratio, zero_ℚ};
ghost use Rattle.fixed_iv.specs.Holds.{IsTightest};

use elements::Decimal;
use fixed_iv::Iv;

/// A decimal times `num / den`.
pub fn scaled(number: Decimal, num: u32, den: u32) -> Iv
    requires { 0 < den }
    ensures { IsTightest (λ x. x ≡ value number *ℚ ratio (pos num) den) result }
{
    let scale = 10u64.pow(u32::from(number.places()));
    Iv::from_ratio(
        i128::from(number.digits()) * i128::from(num),
        i128::from(den) * i128::from(scale),
    )
}

/// `num / den` over a decimal.
pub(crate) fn over(num: u64, den: u64, number: Decimal) -> Iv
    requires small { num < 10 ^ 18 }
    requires divisor { 0 < den }
    requires small_divisor { den ≤ 10 ^ 18 }
    requires positive { zero_ℚ <ℚ value number }
    ensures { IsTightest (λ x. x ≡ ratio (pos num) den /ℚ value number) result }
{
    let scale = 10u64.pow(u32::from(number.places()));
    Iv::from_ratio(
        i128::from(num) * i128::from(scale),
        i128::from(number.digits()) * i128::from(den),
    )
}
