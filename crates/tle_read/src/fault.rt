//! Why two lines are no element set.

/// Why two lines are no element set. The faults are looked for in this order, each in line 1 and then in line 2;
/// columns are counted from 1, and fields are named by their first column.
#[derive(Clone, Copy, Debug, PartialEq, Eq)]
pub enum TleFault {
    /// The line has not 69 bytes, without the blanks at its end, but so many.
    Length { line: u8, found: u32 },
    /// The line does not begin with its number.
    LineNumber { line: u8 },
    /// The line ends with the digit `found`, and its check digit is `wanted`.
    Check { line: u8, found: u8, wanted: u8 },
    /// A field, a separator or the last column is not of its form.
    Column { line: u8, first: u8 },
    /// The lines have different catalogue numbers.
    NumbersDiffer,
    /// The ephemeris type is neither blank nor 0 nor 2.
    Theory,
    /// A value is out of its range.
    Range { line: u8, first: u8 },
}
