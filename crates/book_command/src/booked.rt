//! The contacts of a station that are booked.
ghost use Rattle.std.specs.Prelude.{◌≡◌};
ghost use Rattle.contact_alloc.specs.Stretches.{ends};

use contact_alloc::{Bid, Booking};
use std::marker::Model;

/// The contacts of a station as bids, the ends of these, and their booking.
#[derive(Drop)]
pub struct Booked {
    bids: Vec<Bid>,
    stops: Vec<u64>,
    booking: Booking,
}

impl Model for Booked {
    ghost use Rattle.std.specs.Prelude.{◌≡◌};
    ghost use Rattle.book_command.specs.Record.{BookedRecord};
    ghost use Rattle.contact_alloc.specs.Stretches.{ends};

    ghost Value = { BookedRecord };

    ghost view = { λ b. record { bids = b.bids.items; booking = b.booking } };

    ghost invariant = { λ b. b.stops.items ≡ ends b.bids.items };
}

impl Booked {
    /// The booking of these bids, whose ends are these.
    pub(crate) fn of(bids: Vec<Bid>, stops: Vec<u64>, booking: Booking) -> Booked
        requires { stops.items ≡ ends bids.items }
        ensures { result ≡ record { bids = bids.items; booking = booking } }
    {
        Booked {
            bids,
            stops,
            booking,
        }
    }

    /// The contacts of the station in the order of its timetable, each worth its length in ticks.
    pub fn bids(&self) -> &[Bid]
        ensures { result.now ≡ self.now.bids }
    {
        &self.bids
    }

    /// The ends of the contacts in ticks, each once, in order. A stretch lies between two neighbours.
    pub fn ends(&self) -> &[u64]
        ensures { result.now ≡ ends self.now.bids }
    {
        &self.stops
    }

    /// The antennas of the contacts, the prices of the stretches, and the value.
    pub fn booking(&self) -> &Booking
        ensures { result.now ≡ self.now.booking }
    {
        &self.booking
    }
}
