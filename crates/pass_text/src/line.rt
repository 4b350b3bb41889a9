//! A line of output in a buffer on the stack.
ghost use Rattle.std.specs.Prelude.{◌≡◌, ◌+◌, ◌≤◌, ◌++◌, [], length, decimal};

use arrayvec::ArrayVec;
use elements::{Decimal, Instant};
use itoa::Buffer;
use std::marker::Model;

/// A line of at most 320 bytes.
#[derive(Drop)]
pub struct Line {
    bytes: ArrayVec<u8, 320>,
}

impl Model for Line {
    ghost use Rattle.std.specs.Prelude.{ℕ, List};

    ghost Value = { List ℕ };

    ghost view = { λ line. line.bytes.items };
}

impl Line {
    ghost use Rattle.civil_time.specs.InstantText.{instant_text};
    ghost use Rattle.decimals.specs.PrintedDecimal.{decimal_text};
    ghost use Rattle.std.specs.Fmt.{signed_decimal};

    /// An empty line.
    pub fn new() -> Line
        ensures { result ≡ [] }
    {
        Line {
            bytes: ArrayVec::new(),
        }
    }

    /// The bytes of the line.
    pub fn bytes(&self) -> &[u8]
        ensures value { result.now ≡ self.now }
        ensures fits { length result.now ≤ 320 }
    {
        self.bytes.as_slice()
    }

    /// Appends a text.
    pub fn text(&mut self, text: &[u8])
        requires { length self.old + length text.now ≤ 320 }
        ensures text { self.new ≡ self.old ++ text.now }
        ensures len { length self.new ≡ length self.old + length text.now }
    {
        let _ = self.bytes.try_extend_from_slice(text);
    }

    /// Appends a whole number in decimal digits.
    pub fn number(&mut self, n: u64)
        requires { length self.old ≤ 300 }
        ensures text { self.new ≡ self.old ++ decimal n }
        ensures len { length self.new ≤ length self.old + 20 }
    {
        let mut digits = Buffer::new();
        self.text(digits.format(n).as_bytes());
    }

    /// Appends a whole number in decimal digits, behind a minus sign where it is below 0.
    pub fn signed(&mut self, n: i64)
        requires { length self.old ≤ 300 }
        ensures text { self.new ≡ self.old ++ signed_decimal n }
        ensures len { length self.new ≤ length self.old + 20 }
    {
        let mut digits = Buffer::new();
        self.text(digits.format(n).as_bytes());
    }

    /// Appends a decimal.
    pub fn decimal(&mut self, number: Decimal)
        requires { length self.old ≤ 299 }
        ensures text { self.new ≡ self.old ++ decimal_text number }
        ensures len { length self.new ≤ length self.old + 21 }
    {
        let digits = number.text();
        self.text(digits.as_slice());
    }

    /// Appends an instant with so many decimals of the second.
    pub fn instant(&mut self, at: Instant, places: u8)
        requires some { 1 ≤ places }
        requires most { places ≤ 9 }
        requires room { length self.old ≤ 280 }
        ensures text { self.new ≡ self.old ++ instant_text places at }
        ensures len { length self.new ≡ length self.old + (21 + places) }
    {
        let stamp = at.text(places);
        self.text(stamp.as_str().as_bytes());
    }
}
