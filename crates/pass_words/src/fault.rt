//! The faults of the words.
use crate::key::Opt;

/// Why the words are no request of the program.
#[derive(Clone, Copy, Debug, PartialEq, Eq)]
pub enum UsageFault {
    /// There is no word.
    NoCommand,
    /// The first word is no command.
    Command,
    /// The word with this number, counted from 1 with the command as word 1, is no part of an option.
    Word { at: u64 },
    /// An option has a key that stood before.
    Twice { key: Opt },
    /// A key of the command is not there.
    Missing { key: Opt },
    /// The value of this key is not of its form, or out of its range.
    Value { key: Opt },
}

/// Why the words make no window, by kind: the first of these in this order.
#[derive(Clone, Copy, Debug, PartialEq, Eq)]
pub enum WindowFault {
    /// The start or the end is no instant, or no whole number of ticks of 100 microseconds from 2000-01-01T12:00:00 UTC.
    Shape,
    /// The start or the end lies outside the years 1957 to 2056.
    Year,
    /// The end is not after the start.
    Order,
    /// The end is more than ten days after the start.
    Long,
    /// The resolution is not one or two digits for 1 to 60 seconds.
    Resolution,
}

/// Why the words make no request.
#[derive(Clone, Copy, Debug, PartialEq, Eq)]
pub enum WordFault {
    /// The words themselves are at fault.
    Usage(UsageFault),
    /// The words are in order, and make no window.
    Window(WindowFault),
}
