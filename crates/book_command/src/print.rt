//! The printing of a plan's bookings. Each line is one put.
ghost use Rattle.std.specs.Prelude.{◌≤◌, length, All};
ghost use Rattle.book_command.specs.BookLayout.{book_blocks, book_text};
ghost use Rattle.book_command.specs.Printable.{IsPrintable};
ghost use Rattle.run_ends.specs.Printed.{IsPrinted};

use crate::lines::print_booking;
use crate::plan::BookPlan;
use crate::station::StationBooking;
use elements::Window;
use outside_io::{Failed, Sink};
use pass_text::END;
use plan_command::print_head;
use plan_text::PASSBOOK;
use run_ends::put_line;

/// Puts the whole layout.
pub(crate) fn print_book<K: Sink>(book: &BookPlan, out: &mut K) -> Result<(), Failed>
    requires few { length book.now.bookings ≤ 64 }
    requires printable { All (IsPrintable book.now.plan.setting.window.ticks) book.now.bookings }
    ensures { IsPrinted K.Sink result out.old out.new (book_text book.now) }
{
    put_line(PASSBOOK, out)?;
    let plan = book.plan();
    print_head(plan, out)?;
    print_bookings(plan.window(), book.bookings(), out)?;
    put_line(END, out)
}

/// Puts what is booked at each station.
fn print_bookings<K: Sink>(
    window: Window,
    bookings: &[StationBooking],
    out: &mut K,
) -> Result<(), Failed>
    requires few { length bookings.now ≤ 64 }
    requires printable { All (IsPrintable window.ticks) bookings.now }
    ensures { IsPrinted K.Sink result out.old out.new (book_blocks window.start 1 bookings.now) }
{
    for k in 0..bookings.len() {
        print_booking(window, k as u32 + 1, &bookings[k], out)?;
    }
    Ok(())
}
