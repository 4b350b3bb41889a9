//! The lines of a summary.
ghost use Rattle.std.specs.Prelude.{◌≡◌, ◌≤◌, length};
ghost use Rattle.plan_text.specs.GridLayout.{count_line, spans_line};

use pass_text::Line;

/// The first line.
pub const PASSGRID: &[u8] = b"PASSGRID 1\n";

/// `<word> <count>`
#[tactic(auto, unfolding(crate::specs::GridLayout::count_line))]
pub fn count_line(word: &[u8], count: u64) -> Line
    requires { length word.now ≤ 10 }
    ensures { result ≡ count_line word.now count }
{
    let mut line = Line::new();
    line.text(word);
    line.text(b" ");
    line.number(count);
    line.text(b"\n");
    line
}

/// `<word> <spans> <ticks>`
#[tactic(auto, unfolding(crate::specs::GridLayout::spans_line))]
pub fn spans_line(word: &[u8], spans: u64, ticks: u64) -> Line
    requires { length word.now ≤ 10 }
    ensures { result ≡ spans_line word.now spans ticks }
{
    let mut line = Line::new();
    line.text(word);
    line.text(b" ");
    line.number(spans);
    line.text(b" ");
    line.number(ticks);
    line.text(b"\n");
    line
}
