//! The text of a decimal.
ghost use Rattle.std.specs.Prelude.{◌≡◌, ◌++◌, ◌+◌, ◌≤◌, ◌<◌, ◌^◌, length, decimal};
ghost use Rattle.decimals.specs.PrintedDecimal.{fraction_text};

use crate::Decimal;
use crate::order::power_of_ten;
use arrayvec::ArrayVec;
use itoa::Buffer;
use std::marker::Model;

/// The most digits after the point.
const MOST_PLACES: usize = 18;

/// As many zeros as digits can stand after the point.
const ZEROS: [u8; MOST_PLACES] = [b'0'; MOST_PLACES];

/// The most bytes of a decimal's text: sign, point and 19 digits.
pub const MOST_BYTES: usize = 21;

/// A text that grows.
#[derive(Drop)]
struct Text {
    bytes: ArrayVec<u8, MOST_BYTES>,
}

impl Model for Text {
    ghost use Rattle.std.specs.Prelude.{ℕ, List};

    ghost Value = { List ℕ };

    ghost view = { λ text. text.bytes.items };
}

impl Text {
    fn push(&mut self, bytes: &[u8])
        requires { length self.old + length bytes.now ≤ 21 }
        ensures text { self.new ≡ self.old ++ bytes.now }
        ensures len { length self.new ≡ length self.old + length bytes.now }
    {
        let _ = self.bytes.try_extend_from_slice(bytes);
    }

    fn push_number(&mut self, number: u64)
        requires { length self.old + length (decimal number) ≤ 21 }
        ensures text { self.new ≡ self.old ++ decimal number }
        ensures len { length self.new ≡ length self.old + length (decimal number) }
    {
        let mut digits = Buffer::new();
        self.push(digits.format(number).as_bytes());
    }
}

impl Decimal {
    ghost use Rattle.decimals.specs.PrintedDecimal.{decimal_text};

    /// The sign where the number is below 0, the whole part, and where there are places a point and that many digits.
    #[tactic(auto, unfolding(crate::specs::PrintedDecimal::decimal_text), using(crate::proofs::UnitsLemmas::ten_pow_pos, crate::proofs::PrintLemmas::whole_short, crate::proofs::PrintLemmas::rest_below))]
    pub fn text(self) -> ArrayVec<u8, MOST_BYTES>
        ensures text { result.items ≡ decimal_text self }
        ensures short { length result.items ≤ 21 }
    {
        let (digits, places) = (self.digits(), self.places());
        let size = digits.unsigned_abs();
        let scale = power_of_ten(places);
        let mut text = Text {
            bytes: ArrayVec::new(),
        };
        if digits < 0 {
            text.push(b"-");
        }
        text.push_number(size / scale);
        if places > 0 {
            push_fraction(&mut text, size % scale, places);
        }
        text.bytes
    }
}

/// A point and so many digits.
#[tactic(auto, using(crate::proofs::PrintLemmas::rest_short, crate::proofs::PrintLemmas::fraction_in_code))]
fn push_fraction(text: &mut Text, rest: u64, places: u8)
    requires some { 0 < places }
    requires below { rest < 10 ^ places }
    requires most { places ≤ 18 }
    requires room { length text.old + places + 1 ≤ 21 }
    ensures text { text.new ≡ text.old ++ fraction_text places rest }
    ensures len { length text.new ≡ length text.old + places + 1 }
{
    let mut digits = Buffer::new();
    let written = digits.format(rest).as_bytes();
    text.push(b".");
    text.push(&ZEROS[..places as usize - written.len()]);
    text.push(written);
}
