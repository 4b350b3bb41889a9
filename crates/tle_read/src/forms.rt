//! Separators in the columns of a line, and the fault of a column.
ghost use Rattle.std.specs.Prelude.{◌≡◌, ◌≤◌, length};
ghost use Rattle.tle_read.specs.Forms as spec;

use crate::columns::byte_in;
use crate::fault::TleFault;

/// The value of a field, or the fault of its first column.
pub(crate) fn of_form<T: Copy>(line: u8, first: u8, value: Option<T>) -> Result<T, TleFault>
    ensures { result ≡ spec.of_form line first value }
{
    match value {
        Some(value) => Ok(value),
        None => Err(TleFault::Column { line, first }),
    }
}

/// A space in the column.
#[tactic(auto, unfolding(crate::specs::Forms::space_at))]
pub(crate) fn space_at(number: u8, column: u8, line: &[u8]) -> Result<(), TleFault>
    requires from_one { 1 ≤ column }
    requires inside { column ≤ length line.now }
    ensures { result ≡ spec.space_at number column line.now }
{
    if byte_in(usize::from(column), line) == b' ' {
        Ok(())
    } else {
        Err(TleFault::Column {
            line: number,
            first: column,
        })
    }
}

/// A digit in the column.
#[tactic(auto, unfolding(crate::specs::Forms::digit_at))]
pub(crate) fn digit_at(number: u8, column: u8, line: &[u8]) -> Result<(), TleFault>
    requires from_one { 1 ≤ column }
    requires inside { column ≤ length line.now }
    ensures { result ≡ spec.digit_at number column line.now }
{
    if byte_in(usize::from(column), line).is_ascii_digit() {
        Ok(())
    } else {
        Err(TleFault::Column {
            line: number,
            first: column,
        })
    }
}
