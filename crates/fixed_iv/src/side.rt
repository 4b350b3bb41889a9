//! The answer of a test by enclosures.

/// What enclosed numbers say of a test: it holds for all of them, for none, or that is not decided.
#[derive(Clone, Copy, Debug, PartialEq, Eq)]
pub enum Side {
    Yes,
    No,
    Unsure,
}
