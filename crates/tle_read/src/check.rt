//! The check digit of a line.
ghost use Rattle.std.specs.Prelude.{◌≡◌, ◌≤◌, length};
ghost use Rattle.std.specs.List.{sum_by};
ghost use Rattle.tle_read.specs.CheckDigit as spec;

use crate::columns::columns;

/// What a byte adds to the sum: a digit its value, a minus one, and each other byte nothing.
fn weight(byte: u8) -> u32
    ensures value { result ≡ spec.weight byte }
    ensures bound { result ≤ 9 }
{
    match byte {
        b'0'..=b'9' => u32::from(byte - b'0'),
        b'-' => 1,
        _ => 0,
    }
}

/// The sum of what the bytes of a short text add.
fn sum(text: &[u8]) -> u32
    requires { length text.now ≤ 69 }
    ensures { result ≡ sum_by spec.weight text.now }
{
    let mut sum = 0;
    for byte in text {
        sum += weight(*byte);
    }
    sum
}

/// The digit that column 69 of the line should hold.
#[tactic(auto, unfolding(crate::specs::CheckDigit::check_digit))]
pub(crate) fn check_digit(line: &[u8]) -> u8
    requires { length line.now ≡ 69 }
    ensures { result ≡ spec.check_digit line.now }
{
    (sum(columns(line, 1, 68)) % 10) as u8
}
