//! Laws of bookings.
ghost use Rattle.book_command.specs.BookLaws.{BookingsAreBest};

/// Where the contacts of a station are booked, no two contacts of one antenna overlap, and no other allocation of the same
/// contacts to as many antennas is worth more.
pub fn bookings_are_best()
    ensures { BookingsAreBest }
{
    contact_alloc::certified_value_is_greatest();
}
