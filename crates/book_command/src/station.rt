//! What is booked at a station.
use crate::booked::Booked;

/// What is booked at a station.
#[derive(Drop)]
pub enum StationBooking {
    /// Nothing: it has so many contacts, which are more than 65,536.
    TooMany { contacts: u32 },
    /// Its contacts are allotted to its antennas.
    Booked(Booked),
}
