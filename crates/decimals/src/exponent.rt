//! Reading an exponent.
ghost use Rattle.std.specs.Prelude.{◌≡◌, ◌↔◌, ◌≤◌, length, IsTrue, IsSome, IfSome};
ghost use Rattle.std.specs.List.{list_all};
ghost use Rattle.decimals.specs.NumberText.{exponent_of, is_digit, is_exponent, number_written};
ghost use Rattle.decimals.specs.Normal.{signed};

use crate::cut::{has_minus, without_sign};

/// A power of 10.
#[derive(Clone, Copy)]
pub(crate) struct Exponent {
    pub(crate) minus: bool,
    pub(crate) size: u16,
}

impl Exponent {
    ghost use Rattle.decimals.specs.Normal.{signed};
    ghost use Rattle.std.specs.Prelude.{pos, ◌-ℤ◌};

    /// No exponent.
    pub(crate) const NONE: Exponent = Exponent {
        minus: false,
        size: 0,
    };

    /// How far the point moves to the right and to the left, of which one is 0.
    pub(crate) fn parts(self) -> (u16, u16)
        ensures { signed self.minus self.size ≡ pos result.0 -ℤ pos result.1 }
    {
        if self.minus {
            (0, self.size)
        } else {
            (self.size, 0)
        }
    }
}

/// The exponent that a text writes, if it has the form of one: a sign or none, and one to three digits.
pub(crate) fn exponent_in(text: &[u8]) -> Option<Exponent>
    ensures form { IsSome result ↔ IsTrue (is_exponent text.now) }
    ensures value { IfSome result (λ e. exponent_of (Some text.now) ≡ signed e.minus e.size) }
{
    let digits = without_sign(text);
    if digits.is_empty() || digits.len() > 3 {
        return None;
    }
    match small_number(digits) {
        Some(size) => Some(Exponent {
            minus: has_minus(text),
            size,
        }),
        None => None,
    }
}

/// The number that at most three digits write.
fn small_number(digits: &[u8]) -> Option<u16>
    requires { length digits.now ≤ 3 }
    ensures digits { IsSome result ↔ IsTrue (list_all is_digit digits.now) }
    ensures size { IfSome result (λ n. n ≡ number_written digits.now) }
{
    let mut number = 0;
    for byte in digits {
        if !byte.is_ascii_digit() {
            return None;
        }
        number = number * 10 + u16::from(*byte - b'0');
    }
    Some(number)
}
