//! The command `book`: the contacts of a plan allotted to the antennas of each station.
#![tactic(auto)]

mod book;
mod booked;
mod laws;
mod lines;
mod plan;
mod print;
mod run;
mod station;

pub use booked::Booked;
pub use laws::bookings_are_best;
pub use plan::BookPlan;
pub use run::run_book;
pub use station::StationBooking;
