//! Reading decimals.
ghost use Rattle.std.specs.Prelude.{◌≡◌, ℕ, List, Option, IsTrue};
ghost use Rattle.decimals.specs.DecimalText.{decimal_of_fields, decimal_value};
ghost use Rattle.decimals.specs.Normal.{signed};
ghost use Rattle.decimals.specs.NumberText.{exponent_of, fields_of, may_be_exponent};

use crate::count::digits_of;
use crate::cut::{cut_at_point, exponent_place, has_minus, without_sign};
use crate::exponent::{Exponent, exponent_in};
use crate::fit::fit;
use crate::{Decimal, NumFault};

/// The decimal that a text writes: a sign or none, digits with at most one point among them and at least one of
/// them, and an exponent or none, which is `E` or `e`, a sign or none, and one to three digits. `Shape` where the
/// text has another form, and else `TooFine` where the number is no decimal.
pub fn read_decimal(text: &[u8]) -> Result<Decimal, NumFault>
    ensures { result ≡ decimal_value text.now }
{
    let minus = has_minus(text);
    let unsigned = without_sign(text);
    match exponent_place(unsigned) {
        None => read_mantissa(minus, unsigned, Exponent::NONE),
        Some(place) => match exponent_in(&unsigned[place + 1..]) {
            Some(exponent) => read_mantissa(minus, &unsigned[..place], exponent),
            None => Err(NumFault::Shape),
        },
    }
}

/// The decimal of a sign, a mantissa and an exponent.
fn read_mantissa(minus: bool, mantissa: &[u8], exponent: Exponent) -> Result<Decimal, NumFault>
    ensures { (text : Option (List ℕ)) → IsTrue (may_be_exponent text) → exponent_of text ≡ signed exponent.minus exponent.size → result ≡ decimal_of_fields (fields_of minus mantissa.now text) }
{
    let (whole, fraction) = cut_at_point(mantissa);
    match digits_of(whole, fraction) {
        Some(digits) => fit(minus, digits, fraction.len(), exponent),
        None => Err(NumFault::Shape),
    }
}
