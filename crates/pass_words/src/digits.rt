//! The numbers that few digits write.
ghost use Rattle.std.specs.Prelude.{◌≡◌, ◌<◌, ◌≤◌, ◌^◌, true, length, IfSome};
ghost use Rattle.std.specs.Char.{is_ascii_digit};
ghost use Rattle.std.specs.List.{list_all};
ghost use Rattle.std.specs.Str.Parse.{digits_value};
ghost use Rattle.pass_words.specs.Digits.{few_digits, has_leading_zero, plain_number, short_number};

/// Whether each byte is a digit.
fn all_digits(text: &[u8]) -> bool
    ensures { result ≡ list_all is_ascii_digit text.now }
{
    text.iter().all(|byte| byte.is_ascii_digit())
}

/// The number that at most nine digits write.
fn number_of(digits: &[u8]) -> u32
    requires digits { list_all is_ascii_digit digits.now ≡ true }
    requires few { length digits.now ≤ 9 }
    ensures value { result ≡ digits_value 10 digits.now }
    ensures range { result < 10 ^ 9 }
{
    let mut number = 0;
    for digit in digits {
        number = number * 10 + u32::from(*digit - b'0');
    }
    number
}

/// The number that one to nine digits write.
pub(crate) fn few_digits(text: &[u8]) -> Option<u32>
    ensures value { result ≡ few_digits text.now }
    ensures range { IfSome result (λ number. number < 10 ^ 9) }
{
    if text.is_empty() || text.len() > 9 || !all_digits(text) {
        return None;
    }
    Some(number_of(text))
}

/// Whether a text begins with a zero.
fn has_leading_zero(text: &[u8]) -> bool
    ensures { result ≡ has_leading_zero text.now }
{
    match text {
        [first, ..] => *first == b'0',
        [] => false,
    }
}

/// The number that one to nine digits write without a leading zero.
pub(crate) fn plain_number(text: &[u8]) -> Option<u32>
    ensures { result ≡ plain_number text.now }
{
    if has_leading_zero(text) {
        None
    } else {
        few_digits(text)
    }
}

/// The number that one or two digits write.
pub(crate) fn short_number(text: &[u8]) -> Option<u32>
    ensures value { result ≡ short_number text.now }
    ensures short { IfSome result (λ number. number < 100) }
{
    match text {
        [ones @ b'0'..=b'9'] => Some(u32::from(*ones - b'0')),
        [tens @ b'0'..=b'9', ones @ b'0'..=b'9'] => Some(
            10 * u32::from(*tens - b'0') + u32::from(*ones - b'0'),
        ),
        _ => None,
    }
}
