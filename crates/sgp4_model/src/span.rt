//! Spans of a track.

/// What a span says of each instant of it.
#[derive(Clone, Copy, PartialEq, Eq, Debug)]
pub enum Mark {
    /// Yes holds throughout: visible, sunlit, light.
    Yes,
    /// No holds throughout: hidden, dark, night.
    No,
    /// Neither is certain.
    Undecided,
}

/// A closed stretch of a window. Its ends count ticks of 100 microseconds from the window's start.
#[derive(Clone, Copy, PartialEq, Eq, Debug)]
pub struct Span {
    pub mark: Mark,
    pub from: u64,
    pub to: u64,
}
