//! Why a command makes no product.
ghost use Rattle.std.specs.Prelude.{◌≡◌};
ghost use Rattle.run_ends.specs.Refusals.{refusal_line};

use catalogue::CatFault;
use pass_text::{
    Line, catalogue_fault_line, memory_line, read_line, station_fault_line, too_long_line,
};
use station_file::StFault;

/// Why a command makes no product.
#[derive(Clone, Copy, Debug, PartialEq, Eq)]
pub enum Refusal {
    /// The file of its catalogue is none. The fault is never want of memory.
    BadCatalogue(CatFault),
    /// The file of its stations is none. The fault is never want of memory.
    BadStations(StFault),
    /// A file could not be read.
    Unread,
    /// A file has more than 16 MiB.
    TooLong,
    /// There is not enough memory.
    OutOfMemory,
}

/// The one line that is printed of a refusal.
pub fn refusal_line(refusal: Refusal) -> Line
    ensures { result ≡ refusal_line refusal }
{
    match refusal {
        Refusal::BadCatalogue(fault) => catalogue_fault_line(fault),
        Refusal::BadStations(fault) => station_fault_line(fault),
        Refusal::Unread => read_line(),
        Refusal::TooLong => too_long_line(),
        Refusal::OutOfMemory => memory_line(),
    }
}
