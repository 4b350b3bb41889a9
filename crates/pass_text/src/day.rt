//! The lines of daylight.
ghost use Rattle.std.specs.Prelude.{◌≡◌, ◌≤◌};
ghost use Rattle.pass_text.specs.DayLayout.{day_letter, full_line, span_line, unresolved_line, window_line};

use crate::line::Line;
use elements::Window;
use sgp4_model::{Mark, Span};

/// The first line.
pub const PASSDAY: &[u8] = b"PASSDAY 1\n";

/// The last line.
pub const END: &[u8] = b"END\n";

/// `WINDOW <start> <end> <resolution in seconds>`
#[tactic(auto, unfolding(crate::specs::DayLayout::window_line))]
pub fn window_line(window: Window) -> Line
    ensures { result ≡ window_line window }
{
    let mut line = Line::new();
    line.text(b"WINDOW ");
    line.instant(window.start(), 4);
    line.text(b" ");
    line.instant(window.end(), 4);
    line.text(b" ");
    line.number(window.resolution() / 10_000);
    line.text(b"\n");
    line
}

/// The letter of a mark.
fn letter(mark: Mark) -> &'static [u8]
    ensures { result.now ≡ day_letter mark }
{
    match mark {
        Mark::Yes => b"L",
        Mark::No => b"N",
        Mark::Undecided => b"U",
    }
}

/// `<letter> <from> <to>`
#[tactic(auto, unfolding(crate::specs::DayLayout::span_line))]
pub fn span_line(window: Window, span: Span) -> Line
    requires from { span.from ≤ window.ticks }
    requires to { span.to ≤ window.ticks }
    ensures { result ≡ span_line (day_letter span.mark) window.start span }
{
    let mut line = Line::new();
    line.text(letter(span.mark));
    line.text(b" ");
    line.instant(window.instant_at(span.from), 4);
    line.text(b" ");
    line.instant(window.instant_at(span.to), 4);
    line.text(b"\n");
    line
}

/// `UNRESOLVED <from> <to>`
#[tactic(auto, unfolding(crate::specs::DayLayout::unresolved_line))]
pub fn unresolved_line(window: Window, from: u64, to: u64) -> Line
    requires from { from ≤ window.ticks }
    requires to { to ≤ window.ticks }
    ensures { result ≡ unresolved_line window.start from to }
{
    let mut line = Line::new();
    line.text(b"UNRESOLVED ");
    line.instant(window.instant_at(from), 4);
    line.text(b" ");
    line.instant(window.instant_at(to), 4);
    line.text(b"\n");
    line
}

/// `FULL <at>`
#[tactic(auto, unfolding(crate::specs::DayLayout::full_line))]
pub fn full_line(window: Window, at: u64) -> Line
    requires { at ≤ window.ticks }
    ensures { result ≡ full_line window.start at }
{
    let mut line = Line::new();
    line.text(b"FULL ");
    line.instant(window.instant_at(at), 4);
    line.text(b"\n");
    line
}
