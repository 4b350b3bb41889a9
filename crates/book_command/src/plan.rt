//! A plan with its bookings.
ghost use Rattle.std.specs.Prelude.{◌≡◌};
ghost use Rattle.std.specs.List.{list_all};
ghost use Rattle.book_command.specs.State.{is_booked, is_whole};

use crate::station::StationBooking;
use plan_core::Plan;
use std::marker::Model;

/// A plan, and what is booked at each of its stations, in order.
#[derive(Drop)]
pub struct BookPlan {
    plan: Plan,
    bookings: Vec<StationBooking>,
}

impl Model for BookPlan {
    ghost use Rattle.book_command.specs.State.{BookState};

    ghost Value = { BookState };

    ghost view = { λ b. record { plan = b.plan; bookings = b.bookings.items } };
}

impl BookPlan {
    /// A plan with these bookings.
    pub(crate) fn of(plan: Plan, bookings: Vec<StationBooking>) -> BookPlan
        ensures { result ≡ record { plan = plan; bookings = bookings.items } }
    {
        BookPlan { plan, bookings }
    }

    /// The plan.
    pub fn plan(&self) -> &Plan
        ensures { result.now ≡ self.now.plan }
    {
        &self.plan
    }

    /// What is booked at each station, in the order of the stations.
    pub fn bookings(&self) -> &[StationBooking]
        ensures { result.now ≡ self.now.bookings }
    {
        &self.bookings
    }

    /// Whether the plan is whole and no station has too many contacts.
    pub fn whole(&self) -> bool
        ensures { result ≡ is_whole self.now }
    {
        self.plan.whole() && are_booked(&self.bookings)
    }
}

/// Whether the contacts of each station are booked.
fn are_booked(bookings: &[StationBooking]) -> bool
    ensures { result ≡ list_all is_booked bookings.now }
{
    bookings
        .iter()
        .all(|booking| matches!(booking, StationBooking::Booked(_)))
}
