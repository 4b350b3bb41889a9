//! Digits, and the numbers that they write.
ghost use Rattle.std.specs.Prelude.{true, ◌≡◌, ◌+◌, ◌*◌, ◌^◌, ◌≤◌, length};
ghost use Rattle.std.specs.Char.{is_ascii_digit};
ghost use Rattle.std.specs.List.{list_all};
ghost use Rattle.std.specs.Str.Parse.{digits_value_after};
ghost use Rattle.omm_kvn.specs.Digits.{short_number};

/// Whether each byte is a digit.
fn all_digits(text: &[u8]) -> bool
    ensures { result ≡ list_all is_ascii_digit text.now }
{
    text.iter().all(|byte| byte.is_ascii_digit())
}

/// The number that digits write when they follow those of another number.
fn number_after(before: u64, digits: &[u8]) -> u64
    requires digits { list_all is_ascii_digit digits.now ≡ true }
    requires fits { (before + 1) * 10 ^ length digits.now ≤ 2 ^ 63 }
    ensures value { result ≡ digits_value_after 10 before digits.now }
    ensures bound { result + 1 ≤ (before + 1) * 10 ^ length digits.now }
{
    let mut number = before;
    for digit in digits {
        number = number * 10 + u64::from(*digit - b'0');
    }
    number
}

/// The number that one to nine digits write.
#[tactic(auto, using(crate::proofs::NumberLemmas::ten_pow_le))]
pub(crate) fn short_number(text: &[u8]) -> Option<u32>
    ensures { result ≡ short_number text.now }
{
    if text.is_empty() || text.len() > 9 || !all_digits(text) {
        return None;
    }
    Some(number_after(0, text) as u32)
}
