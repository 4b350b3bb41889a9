//! The type of numbers in fixed point.
ghost use Rattle.std.specs.Prelude.{◌≡◌};

use decimals::Decimal;
use std::marker::Model;

/// A number of at most twelve digits in fixed point: its digits as one whole number, and how many of them stand after
/// the point.
#[derive(Clone, Copy)]
pub(crate) struct Fixed {
    digits: u64,
    places: u8,
}

impl Model for Fixed {
    ghost use Rattle.tle_read.specs.Fields.{FixedPoint, IsShort};

    ghost Value = { FixedPoint };

    ghost view = { λ a. record { digits = a.digits; places = a.places } };

    ghost invariant = { λ a. IsShort (record { digits = a.digits; places = a.places }) };

    ghost inverse = { λ n. record { digits = n.digits; places = n.places } };
}

impl Fixed {
    ghost use Rattle.std.specs.Prelude.{◌≤◌, ◌^◌, nat_lt};
    ghost use Rattle.tle_read.specs.Fields.{IsShort, decimal_of};
    ghost use Rattle.tle_read.specs.Ranges.{is_at_most};

    /// The number of these digits, so many of them after the point.
    pub(crate) fn make(digits: u64, places: u8) -> Fixed
        requires { IsShort (record { digits = digits; places = places }) }
        ensures { result ≡ record { digits = digits; places = places } }
    {
        Fixed { digits, places }
    }

    /// The digits as one whole number.
    pub(crate) fn digits(self) -> u64
        ensures value { result ≡ self.digits }
        ensures short { IsShort self }
    {
        self.digits
    }

    /// How many digits stand after the point.
    pub(crate) fn places(self) -> u8
        ensures value { result ≡ self.places }
        ensures short { IsShort self }
    {
        self.places
    }

    /// 10 to the power of the places.
    #[tactic(auto, using(crate::proofs::NumberLemmas::ten_pow_short))]
    pub(crate) fn unit(self) -> u64
        ensures value { result ≡ 10 ^ self.places }
        ensures bound { result ≤ 10 ^ 11 }
    {
        10u64.pow(u32::from(self.places))
    }

    /// Whether the number is at most the whole number.
    pub(crate) fn is_at_most(self, most: u16) -> bool
        ensures { result ≡ is_at_most self most }
    {
        self.digits <= u64::from(most) * self.unit()
    }

    /// The number as a decimal.
    pub(crate) fn decimal(self) -> Decimal
        ensures { result ≡ decimal_of self }
    {
        Decimal::of_scaled(self.digits as i64, self.places)
    }
}
