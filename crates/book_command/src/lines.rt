//! The printing of a station's booking. Each line is one put.
ghost use Rattle.std.specs.Prelude.{◌≡◌, ◌-◌, ◌≤◌, length, All};
ghost use Rattle.book_command.specs.BookLayout.{book_block, booked_block};
ghost use Rattle.book_command.specs.Printable.{ArePrintable, IsPrintable};
ghost use Rattle.plan_command.specs.Tables.{IsContactWithin};
ghost use Rattle.plan_text.specs.BookLines.{price_lines, price_text, use_lines, use_text};
ghost use Rattle.run_ends.specs.Printed.{IsPrinted};

use crate::booked::Booked;
use crate::station::StationBooking;
use contact_alloc::{Bid, Contact};
use elements::Window;
use outside_io::{Failed, Sink};
use plan_text::{book_line, price_line, too_many_line, use_line};
use run_ends::put_line;

/// Puts what is booked at the station with an index, counted from 1.
pub(crate) fn print_booking<K: Sink>(
    window: Window,
    index: u32,
    booking: &StationBooking,
    out: &mut K,
) -> Result<(), Failed>
    requires { IsPrintable window.ticks booking.now }
    ensures { IsPrinted K.Sink result out.old out.new (book_block window.start index booking.now) }
{
    match booking {
        StationBooking::TooMany { contacts } => {
            put_line(too_many_line(index, *contacts).bytes(), out)
        }
        StationBooking::Booked(booked) => print_booked(window, index, booked, out),
    }
}

/// Puts the contacts that are booked at the station with an index, and the prices of its stretches.
fn print_booked<K: Sink>(
    window: Window,
    index: u32,
    booked: &Booked,
    out: &mut K,
) -> Result<(), Failed>
    requires { ArePrintable window.ticks booked.now }
    ensures { IsPrinted K.Sink result out.old out.new (booked_block window.start index booked.now) }
{
    let bids = booked.bids();
    let booking = booked.booking();
    let count = bids.len() as u32;
    put_line(book_line(index, count, booking.value()).bytes(), out)?;
    print_uses(window, bids, booking.used(), out)?;
    print_prices(window, booked.ends(), booking.prices(), out)
}

/// Puts a line for each contact that has an antenna.
fn print_uses<K: Sink>(
    window: Window,
    bids: &[Bid],
    used: &[u32],
    out: &mut K,
) -> Result<(), Failed>
    requires one_each { length used.now ≡ length bids.now }
    requires within { All (λ bid. IsContactWithin window.ticks bid.contact) bids.now }
    ensures { IsPrinted K.Sink result out.old out.new (use_lines window.start bids.now used.now) }
{
    for i in 0..bids.len() {
        print_use(window, bids[i].contact, used[i], out)?;
    }
    Ok(())
}

/// Puts the line of a contact, where it has an antenna.
fn print_use<K: Sink>(
    window: Window,
    contact: Contact,
    antenna: u32,
    out: &mut K,
) -> Result<(), Failed>
    requires { IsContactWithin window.ticks contact }
    ensures { IsPrinted K.Sink result out.old out.new (use_text window.start contact antenna) }
{
    if antenna == 0 {
        Ok(())
    } else {
        put_line(use_line(window, contact, antenna).bytes(), out)
    }
}

/// Puts a line for each stretch that has a price.
fn print_prices<K: Sink>(
    window: Window,
    ends: &[u64],
    prices: &[u64],
    out: &mut K,
) -> Result<(), Failed>
    requires one_each { length prices.now ≡ length ends.now - 1 }
    requires within { All (λ at. at ≤ window.ticks) ends.now }
    ensures { IsPrinted K.Sink result out.old out.new (price_lines window.start ends.now prices.now) }
{
    for j in 0..prices.len() {
        print_price(window, ends[j], ends[j + 1], prices[j], out)?;
    }
    Ok(())
}

/// Puts the line of a stretch, where its price is above 0.
fn print_price<K: Sink>(
    window: Window,
    from: u64,
    to: u64,
    price: u64,
    out: &mut K,
) -> Result<(), Failed>
    requires from { from ≤ window.ticks }
    requires to { to ≤ window.ticks }
    ensures { IsPrinted K.Sink result out.old out.new (price_text window.start from to price) }
{
    if price == 0 {
        Ok(())
    } else {
        put_line(price_line(window, from, to, price).bytes(), out)
    }
}
