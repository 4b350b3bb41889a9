//! The lines of bookings.
ghost use Rattle.std.specs.Prelude.{◌≡◌, ◌≤◌};
ghost use Rattle.plan_text.specs.BookLines.{book_line, price_line, too_many_line, use_line};

use contact_alloc::Contact;
use elements::Window;
use pass_text::Line;

/// The first line.
pub const PASSBOOK: &[u8] = b"PASSBOOK 1\n";

/// `BOOK <index> <contacts> <value>`
#[tactic(auto, unfolding(crate::specs::BookLines::book_line))]
pub fn book_line(index: u32, contacts: u32, value: u64) -> Line
    ensures { result ≡ book_line index contacts value }
{
    let mut line = Line::new();
    line.text(b"BOOK ");
    line.number(index as u64);
    line.text(b" ");
    line.number(contacts as u64);
    line.text(b" ");
    line.number(value);
    line.text(b"\n");
    line
}

/// `BOOK <index> TOOMANY <contacts>`
#[tactic(auto, unfolding(crate::specs::BookLines::too_many_line))]
pub fn too_many_line(index: u32, contacts: u32) -> Line
    ensures { result ≡ too_many_line index contacts }
{
    let mut line = Line::new();
    line.text(b"BOOK ");
    line.number(index as u64);
    line.text(b" TOOMANY ");
    line.number(contacts as u64);
    line.text(b"\n");
    line
}

/// `USE <from> <to> <number> <antenna>`
#[tactic(auto, unfolding(crate::specs::BookLines::use_line))]
pub fn use_line(window: Window, contact: Contact, antenna: u32) -> Line
    requires from { contact.from ≤ window.ticks }
    requires to { contact.to ≤ window.ticks }
    ensures { result ≡ use_line window.start contact antenna }
{
    let mut line = Line::new();
    line.text(b"USE ");
    line.instant(window.instant_at(contact.from), 4);
    line.text(b" ");
    line.instant(window.instant_at(contact.to), 4);
    line.text(b" ");
    line.number(contact.number as u64);
    line.text(b" ");
    line.number(antenna as u64);
    line.text(b"\n");
    line
}

/// `PRICE <from> <to> <price>`
#[tactic(auto, unfolding(crate::specs::BookLines::price_line))]
pub fn price_line(window: Window, from: u64, to: u64, price: u64) -> Line
    requires from { from ≤ window.ticks }
    requires to { to ≤ window.ticks }
    ensures { result ≡ price_line window.start from to price }
{
    let mut line = Line::new();
    line.text(b"PRICE ");
    line.instant(window.instant_at(from), 4);
    line.text(b" ");
    line.instant(window.instant_at(to), 4);
    line.text(b" ");
    line.number(price);
    line.text(b"\n");
    line
}
