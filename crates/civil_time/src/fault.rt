//! Why a text is no instant.

/// Why a text is no instant, in the order in which the faults are looked for.
#[derive(Clone, Copy, Debug, PartialEq, Eq)]
pub enum TimeFault {
    /// The text does not have the form of a date and a time of day.
    Shape,
    /// The calendar has no such day, or a clock shows no such time.
    NotADay,
    /// The year is not one of 1957 to 2056.
    Year,
}
