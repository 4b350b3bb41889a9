//! The lines of a place.
ghost use Rattle.std.specs.Prelude.{◌≡◌, ◌≤◌, length};
ghost use Rattle.pass_text.specs.LocateLayout.{at_line, edge_line, missing_line};

use crate::line::Line;
use elements::Instant;

/// The first line.
pub const PASSLOCATE: &[u8] = b"PASSLOCATE 1\n";

/// The line of a satellite that has decayed, so that it has no bounds.
pub const DECAYED: &[u8] = b"DECAYED\n";

/// `AT <instant>`, with nine decimals
#[tactic(auto, unfolding(crate::specs::LocateLayout::at_line))]
pub fn at_line(at: Instant) -> Line
    ensures { result ≡ at_line at }
{
    let mut line = Line::new();
    line.text(b"AT ");
    line.instant(at, 9);
    line.text(b"\n");
    line
}

/// `MISSING <number>`
#[tactic(auto, unfolding(crate::specs::LocateLayout::missing_line))]
pub fn missing_line(number: u32) -> Line
    ensures { result ≡ missing_line number }
{
    let mut line = Line::new();
    line.text(b"MISSING ");
    line.number(number as u64);
    line.text(b"\n");
    line
}

/// `<letter> <low> <high>`
#[tactic(auto, unfolding(crate::specs::LocateLayout::edge_line))]
pub fn edge_line(letter: &[u8], low: i64, high: i64) -> Line
    requires { length letter.now ≤ 1 }
    ensures { result ≡ edge_line letter.now low high }
{
    let mut line = Line::new();
    line.text(letter);
    line.text(b" ");
    line.signed(low);
    line.text(b" ");
    line.signed(high);
    line.text(b"\n");
    line
}
