//! The type of decimals, its makers and its readers.
ghost use Rattle.std.specs.Prelude.{◌≡◌, ◌<◌, ◌≤◌, ◌%◌, ◌^◌, unsigned_abs};

use crate::shortest::shortest;
use std::marker::Model;

/// An exact decimal number of at most 18 digits, of which at most 18 stand after the point.
/// Equal numbers are equal decimals, since the last digit after the point is not 0.
#[derive(Clone, Copy, Debug)]
pub struct Decimal {
    digits: i64,
    places: u8,
}

impl Model for Decimal {
    ghost use Rattle.decimals.specs.Decimal.{DecimalRecord, IsDecimal};

    ghost Value = { DecimalRecord };

    ghost view = { λ a. record { digits = a.digits; places = a.places } };

    ghost invariant = { λ a. IsDecimal (record { digits = a.digits; places = a.places }) };

    ghost inverse = { λ d. record { digits = d.digits; places = d.places } };
}

impl Decimal {
    ghost use Rattle.std.specs.Prelude.{pos};
    ghost use Rattle.decimals.specs.Decimal.{IsDecimal, value};
    ghost use Rattle.exact.specs.Rational.{of_int, ratio};
    ghost use Rattle.decimals.specs.Normal.{normal, signed};

    /// The decimal `digits / 10^places`, without the zeros at its end.
    #[tactic(auto, using(crate::proofs::NormalLemmas::shortest_is_short, crate::proofs::UnitsLemmas::value_normal))]
    pub fn of_scaled(digits: i64, places: u8) -> Decimal
        requires digits { unsigned_abs digits < 10 ^ 18 }
        requires places { places ≤ 18 }
        ensures form { result ≡ normal digits places }
        ensures value { value result ≡ ratio digits (10 ^ places) }
    {
        let (size, left) = shortest(digits.unsigned_abs(), places);
        Decimal::of_parts(digits < 0, size, left)
    }

    /// The decimal of this sign, these digits and these places.
    pub(crate) fn of_parts(minus: bool, size: u64, places: u8) -> Decimal
        requires size { size < 10 ^ 18 }
        requires most_places { places ≤ 18 }
        requires last_digit { 0 < places → ¬ (size % 10 ≡ 0) }
        ensures { result ≡ record { digits = signed minus size; places = places } }
    {
        let digits = size as i64;
        Decimal {
            digits: if minus { -digits } else { digits },
            places,
        }
    }

    /// The whole number as a decimal.
    #[tactic(auto, using(crate::proofs::UnitsLemmas::value_whole))]
    pub fn whole(number: i32) -> Decimal
        ensures form { result ≡ record { digits = number; places = 0 } }
        ensures value { value result ≡ of_int number }
    {
        Decimal {
            digits: number as i64,
            places: 0,
        }
    }

    /// The digits without the point, as a whole number.
    pub fn digits(self) -> i64
        ensures value { result ≡ self.digits }
        ensures decimal { IsDecimal self }
    {
        self.digits
    }

    /// How many of the digits stand after the point.
    pub fn places(self) -> u8
        ensures value { result ≡ self.places }
        ensures decimal { IsDecimal self }
    {
        self.places
    }
}
