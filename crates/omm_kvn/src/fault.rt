//! Why a text is no message.
use crate::key::Key;

/// Why a text is no message. The faults of lines come first, in the order of the lines, and then those of keys, in the
/// order of the keys.
#[derive(Clone, Copy, Debug, PartialEq, Eq)]
pub enum OmmFault {
    /// The line with this number, counted from 1, is neither blank nor a comment, and no keyword with a value.
    Line { line: u32 },
    /// The keyword stands in an earlier line as well.
    Twice { key: Key },
    /// The keyword is one of elements that are not read, or its value is none of those that are.
    Unsupported { key: Key },
    /// The keyword is needed, and in no line.
    Missing { key: Key },
    /// The value is not of its form, or out of its range.
    Value { key: Key },
}
