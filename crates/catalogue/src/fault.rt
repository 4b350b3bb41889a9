//! Why a file is no catalogue.
use omm_kvn::OmmFault;
use tle_read::TleFault;

/// Why an element set could not be read.
#[derive(Clone, Copy, Debug, PartialEq, Eq)]
pub enum SetFault {
    /// The fault of two lines.
    Tle(TleFault),
    /// The fault of a message.
    Omm(OmmFault),
}

/// Why a file is no catalogue. Lines are counted from 1, with the blank ones.
#[derive(Clone, Copy, Debug, PartialEq, Eq)]
pub enum CatFault {
    /// No line is more than blanks.
    Empty,
    /// The line with this number stands where a line of an element set should.
    Odd { line: u32 },
    /// The element set whose first line has this number could not be read.
    BadSet { line: u32, fault: SetFault },
    /// The file goes on behind 16,384 element sets.
    TooMany,
    /// There is not enough memory.
    OutOfMemory,
}
