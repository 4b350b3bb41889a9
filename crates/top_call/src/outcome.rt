//! What a run comes to.
ghost use Rattle.std.specs.Prelude.{◌≡◌};
ghost use Rattle.top_call.specs.Outcome.{is_whole, outcome_of, status_of};

use book_command::BookPlan;
use catalogue::{CatFault, Catalogue};
use day_command::DayResult;
use grid_command::Counted;
use locate_command::LocAnswer;
use pass_words::{UsageFault, WindowFault};
use plan_command::Plan;
use run_ends::{Ending, Refusal};
use station_file::StFault;

/// What a command gives.
#[derive(Drop)]
pub enum Product {
    /// The daylight of a place.
    Day(DayResult),
    /// The satellites of a file planned over the stations of a file.
    Plan(Plan),
    /// The satellites of a file, each by its element set that is nearest to an instant.
    Shown(Catalogue),
    /// Where a satellite of a file is at an instant.
    Located(LocAnswer),
    /// The generated catalogue planned and counted.
    Counted(Counted),
    /// The contacts of a plan allotted to antennas.
    Booked(BookPlan),
}

/// What a run comes to.
#[derive(Drop)]
pub enum Outcome {
    /// The product was made and written.
    Done { product: Product },
    /// The words make no request.
    Usage(UsageFault),
    /// The words make no window.
    BadWindow(WindowFault),
    /// The file that the words give for a catalogue is none. The fault is never want of memory.
    BadCatalogue(CatFault),
    /// The file that the words give for stations is none. The fault is never want of memory.
    BadStations(StFault),
    /// A file that the words name could not be read.
    ReadFault,
    /// A file that the words name has more than 16 MiB.
    TooLong,
    /// The product was made, and a write failed.
    WriteFault { product: Product },
    /// There was no memory for the words, a file or the product.
    OutOfMemory,
}

/// The exit status of an outcome: 0 where the product is whole, 1 where it is not, 2 for the words, 3 for the window, 4
/// for a file that is no catalogue, 5 for one that is no station file, 6 for one that could not be read, 7 for one that is
/// too long, 8 for a write that failed, 9 for want of memory.
pub fn status(outcome: &Outcome) -> u8
    ensures { result ≡ status_of outcome.now }
{
    match outcome {
        Outcome::Done { product } => { if is_whole(product) { 0 } else { 1 } }
        Outcome::Usage(_) => 2,
        Outcome::BadWindow(_) => 3,
        Outcome::BadCatalogue(_) => 4,
        Outcome::BadStations(_) => 5,
        Outcome::ReadFault => 6,
        Outcome::TooLong => 7,
        Outcome::WriteFault { .. } => 8,
        Outcome::OutOfMemory => 9,
    }
}

/// Whether nothing is left out of the product.
fn is_whole(product: &Product) -> bool
    ensures { result ≡ is_whole product.now }
{
    match product {
        Product::Day(day) => day.is_whole(),
        Product::Plan(plan) => plan.whole(),
        Product::Shown(_) => true,
        Product::Located(answer) => answer.is_placed(),
        Product::Counted(counted) => counted.is_whole(),
        Product::Booked(book) => book.whole(),
    }
}

/// The outcome of words that make a request.
pub(crate) fn outcome_of(ending: Ending<Product>) -> Outcome
    ensures { result ≡ outcome_of ending }
{
    match ending {
        Ending::Done { product } => Outcome::Done { product },
        Ending::WriteFault { product } => Outcome::WriteFault { product },
        Ending::Refused(refusal) => refused(refusal),
    }
}

/// The outcome of a refusal.
fn refused(refusal: Refusal) -> Outcome
    ensures { result ≡ outcome_of (Ending.Refused refusal) }
{
    match refusal {
        Refusal::BadCatalogue(fault) => Outcome::BadCatalogue(fault),
        Refusal::BadStations(fault) => Outcome::BadStations(fault),
        Refusal::Unread => Outcome::ReadFault,
        Refusal::TooLong => Outcome::TooLong,
        Refusal::OutOfMemory => Outcome::OutOfMemory,
    }
}
