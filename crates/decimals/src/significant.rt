//! The digits of a number of any length, in a fixed room.
ghost use Rattle.std.specs.Prelude.{◌≡◌, ℕ, ◌+◌, ◌*◌, ◌%◌, ◌^◌, ◌<◌, ◌≤◌};

use crate::order::power_of_ten;

/// The least number of 19 digits.
pub(crate) const TOO_LARGE: u128 = 1_000_000_000_000_000_000;

/// The digits of a number without the zeros at their ends.
#[derive(Clone, Copy)]
pub(crate) enum Significant {
    /// At most 18 digits, and how many zeros stand behind them.
    Short { digits: u64, zeros: u64 },
    /// More digits.
    Long,
}

impl Significant {
    ghost use Rattle.decimals.specs.Significant.{Keeps, zeros_of, IsShort};

    /// The number with one digit more behind it.
    pub(crate) fn then(self, digit: u8) -> Significant
        requires kept { (n : ℕ) × Keeps self n }
        requires digit { digit < 10 }
        requires room { zeros_of self + 1 < 2 ^ 64 }
        ensures keeps { (n : ℕ) → Keeps self n → Keeps result (n * 10 + digit) }
        ensures zeros { zeros_of result ≤ zeros_of self + 1 }
    {
        match self {
            Significant::Long => Significant::Long,
            Significant::Short { digits, zeros } => {
                if digits == 0 {
                    Significant::Short {
                        digits: u64::from(digit),
                        zeros: 0,
                    }
                } else if digit == 0 {
                    Significant::Short {
                        digits,
                        zeros: zeros + 1,
                    }
                } else {
                    Significant::joined(digits, zeros, digit)
                }
            }
        }
    }

    /// Digits, zeros and a digit that is not 0.
    fn joined(digits: u64, zeros: u64, digit: u8) -> Significant
        requires size { digits < 10 ^ 18 }
        requires some { 0 < digits }
        requires digit { (0 < digit) × (digit < 10) }
        ensures keeps { Keeps result (digits * 10 ^ zeros * 10 + digit) }
        ensures zeros { zeros_of result ≤ 0 }
    {
        if zeros >= 17 {
            return Significant::Long;
        }
        let all = u128::from(digits) * u128::from(power_of_ten(zeros as u8 + 1))
            + u128::from(digit);
        if all < TOO_LARGE {
            Significant::Short {
                digits: all as u64,
                zeros: 0,
            }
        } else {
            Significant::Long
        }
    }
}
