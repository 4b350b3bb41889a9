//! The versions of the format.

/// The version of a station file. The second has the offset of UT1 from UTC.
#[derive(Clone, Copy)]
pub(crate) enum Version {
    First,
    Second,
}
