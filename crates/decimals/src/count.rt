//! Reading digits.
ghost use Rattle.std.specs.Prelude.{◌≡◌, ◌↔◌, ℕ, ◌+◌, ◌<◌, ◌≤◌, ◌^◌, ◌++◌, length, IsTrue, IsSome, IfSome};
ghost use Rattle.std.specs.List.{list_all};
ghost use Rattle.decimals.specs.NumberText.{are_digits, is_digit, number_after, number_written};
ghost use Rattle.decimals.specs.Significant.{Keeps, zeros_of};

use crate::significant::Significant;

/// The number with these digits behind it, if they are digits.
pub(crate) fn count(start: Significant, bytes: &[u8]) -> Option<Significant>
    requires kept { (n : ℕ) × Keeps start n }
    requires room { zeros_of start + length bytes.now < 2 ^ 64 }
    ensures digits { IsSome result ↔ IsTrue (list_all is_digit bytes.now) }
    ensures keeps { (n : ℕ) → Keeps start n → IfSome result (λ s. Keeps s (number_after n bytes.now)) }
    ensures zeros { IfSome result (λ s. zeros_of s ≤ zeros_of start + length bytes.now) }
{
    let mut significant = start;
    for byte in bytes {
        if !byte.is_ascii_digit() {
            return None;
        }
        significant = significant.then(*byte - b'0');
    }
    Some(significant)
}

/// The number that the digits of both lists write, if they are digits and there is one.
pub(crate) fn digits_of(whole: &[u8], fraction: &[u8]) -> Option<Significant>
    requires { length whole.now + length fraction.now < 2 ^ 64 }
    ensures digits { IsSome result ↔ IsTrue (are_digits (whole.now ++ fraction.now)) }
    ensures keeps { IfSome result (λ s. Keeps s (number_written (whole.now ++ fraction.now))) }
{
    if whole.is_empty() && fraction.is_empty() {
        return None;
    }
    match count(
        Significant::Short {
            digits: 0,
            zeros: 0,
        },
        whole,
    ) {
        Some(before) => match count(before, fraction) {
            Some(all) => Some(all),
            None => None,
        },
        None => None,
    }
}
