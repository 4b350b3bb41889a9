//! The lines of timetables.
ghost use Rattle.std.specs.Prelude.{◌≡◌, ◌≤◌};
ghost use Rattle.plan_text.specs.TableLines.{pass_line, table_line};

use contact_alloc::Contact;
use elements::Window;
use pass_text::Line;

/// `TABLE <index> <count>`
#[tactic(auto, unfolding(crate::specs::TableLines::table_line))]
pub fn table_line(index: u32, count: u32) -> Line
    ensures { result ≡ table_line index count }
{
    let mut line = Line::new();
    line.text(b"TABLE ");
    line.number(index as u64);
    line.text(b" ");
    line.number(count as u64);
    line.text(b"\n");
    line
}

/// `PASS <from> <to> <number>`
#[tactic(auto, unfolding(crate::specs::TableLines::pass_line))]
pub fn pass_line(window: Window, contact: Contact) -> Line
    requires from { contact.from ≤ window.ticks }
    requires to { contact.to ≤ window.ticks }
    ensures { result ≡ pass_line window.start contact }
{
    let mut line = Line::new();
    line.text(b"PASS ");
    line.instant(window.instant_at(contact.from), 4);
    line.text(b" ");
    line.instant(window.instant_at(contact.to), 4);
    line.text(b" ");
    line.number(contact.number as u64);
    line.text(b"\n");
    line
}
