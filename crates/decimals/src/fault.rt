//! Why a text is read as no decimal.

/// Why a text is read as no decimal.
#[derive(Clone, Copy, Debug, PartialEq, Eq)]
pub enum NumFault {
    /// The text has not the form of a number.
    Shape,
    /// The number has more digits or more places than a decimal.
    TooFine,
}
