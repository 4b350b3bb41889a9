//! The columns of a text, counted from 0, and the numbers that stand in them.
ghost use Rattle.std.specs.Prelude.{true, ◌≡◌, ◌+◌, ◌*◌, ◌^◌, ◌<◌, ◌≤◌, length};
ghost use Rattle.std.specs.Char.{is_ascii_digit};
ghost use Rattle.std.specs.List.{list_all};
ghost use Rattle.std.specs.Str.Parse.{digits_value};
ghost use Rattle.civil_time.specs.Columns as spec;

/// Whether the text has so many columns from this one on, and a digit in each.
#[tactic(auto, unfolding(crate::specs::Columns::are_digits), using(crate::proofs::ColumnLemmas::are_digits_short))]
pub(crate) fn are_digits(text: &[u8], from: usize, count: usize) -> bool
    requires some { 1 ≤ count }
    requires near { from + count < 100 }
    ensures { result ≡ spec.are_digits from count text.now }
{
    from + count <= text.len() && all_digits(&text[from..from + count])
}

/// Whether each byte is a digit.
pub(crate) fn all_digits(text: &[u8]) -> bool
    ensures { result ≡ list_all is_ascii_digit text.now }
{
    text.iter().all(|byte| byte.is_ascii_digit())
}

/// The number in so many columns from this one on.
#[tactic(auto, unfolding(crate::specs::Columns::are_digits, crate::specs::Columns::number_at))]
pub(crate) fn number_at(text: &[u8], from: usize, count: usize) -> u32
    requires digits { spec.are_digits from count text.now ≡ true }
    requires some { 1 ≤ count }
    requires near { from < 100 }
    requires few { count ≤ 9 }
    ensures value { result ≡ spec.number_at from count text.now }
    ensures bound { result < 10 ^ count }
{
    number(&text[from..from + count])
}

/// The number that at most nine digits write.
pub(crate) fn number(digits: &[u8]) -> u32
    requires digits { list_all is_ascii_digit digits.now ≡ true }
    requires few { length digits.now ≤ 9 }
    ensures value { result ≡ digits_value 10 digits.now }
    ensures bound { result < 10 ^ length digits.now }
{
    let mut number = 0;
    for digit in digits {
        number = number * 10 + u32::from(*digit - b'0');
    }
    number
}

/// Whether the text has this byte in the column.
pub(crate) fn has_mark(text: &[u8], column: usize, byte: u8) -> bool
    requires { 0 < byte }
    ensures { result ≡ spec.has_mark column byte text.now }
{
    column < text.len() && text[column] == byte
}
