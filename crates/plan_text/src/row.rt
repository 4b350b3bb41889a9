//! The lines of rows: what a satellite's light and each station's sight of it are.
ghost use Rattle.std.specs.Prelude.{◌≡◌, ◌≤◌, ◌+◌, ◌++◌, length};
ghost use Rattle.pass_text.specs.DayLayout.{span_line};
ghost use Rattle.span_bisect.specs.Answer.{answer_record};
ghost use Rattle.plan_text.specs.Plan.{AnswerIsWithin, IsWithin};
ghost use Rattle.plan_text.specs.RowLines.{answer_words, lit_letter, lit_line, pair_letter, pair_line, unresolved_words};

use elements::Window;
use pass_text::Line;
use span_bisect::{Mark, Span, TrackAnswer};

/// `LIT <number> <answer>`
#[tactic(auto, unfolding(crate::specs::RowLines::lit_line))]
pub fn lit_line(window: Window, number: u32, answer: &TrackAnswer) -> Line
    requires { AnswerIsWithin window.ticks (answer_record answer.now) }
    ensures { result ≡ lit_line window.start number (answer_record answer.now) }
{
    let mut line = Line::new();
    line.text(b"LIT ");
    line.number(number as u64);
    line.text(b" ");
    answer_words(&mut line, window, answer);
    line.text(b"\n");
    line
}

/// `PAIR <number> <index> <answer>`
#[tactic(auto, unfolding(crate::specs::RowLines::pair_line))]
pub fn pair_line(window: Window, number: u32, index: u32, answer: &TrackAnswer) -> Line
    requires { AnswerIsWithin window.ticks (answer_record answer.now) }
    ensures { result ≡ pair_line window.start number index (answer_record answer.now) }
{
    let mut line = Line::new();
    line.text(b"PAIR ");
    line.number(number as u64);
    line.text(b" ");
    line.number(index as u64);
    line.text(b" ");
    answer_words(&mut line, window, answer);
    line.text(b"\n");
    line
}

/// Appends an answer.
#[tactic(auto, unfolding(crate::specs::RowLines::answer_words))]
fn answer_words(line: &mut Line, window: Window, answer: &TrackAnswer)
    requires room { length line.old ≤ 100 }
    requires within { AnswerIsWithin window.ticks (answer_record answer.now) }
    ensures text { line.new ≡ line.old ++ answer_words window.start (answer_record answer.now) }
    ensures len { length line.new ≤ length line.old + 62 }
{
    match answer {
        TrackAnswer::Spans(track) => {
            line.text(b"SPANS ");
            line.number(track.count() as u64);
        }
        TrackAnswer::Unresolved { from, to } => unresolved_words(line, window, *from, *to),
        TrackAnswer::Full { at } => {
            line.text(b"FULL ");
            line.instant(window.instant_at(*at), 4);
        }
        TrackAnswer::Decays { at } => {
            line.text(b"DECAYS ");
            line.instant(window.instant_at(*at), 4);
        }
    }
}

/// Appends `UNRESOLVED <from> <to>`.
#[tactic(auto, unfolding(crate::specs::RowLines::unresolved_words))]
fn unresolved_words(line: &mut Line, window: Window, from: u64, to: u64)
    requires room { length line.old ≤ 100 }
    requires from { from ≤ window.ticks }
    requires to { to ≤ window.ticks }
    ensures text { line.new ≡ line.old ++ unresolved_words window.start from to }
    ensures len { length line.new ≤ length line.old + 62 }
{
    line.text(b"UNRESOLVED ");
    line.instant(window.instant_at(from), 4);
    line.text(b" ");
    line.instant(window.instant_at(to), 4);
}

/// `<letter> <from> <to>`: S in sunlight, D dark, U undecided
pub fn lit_span_line(window: Window, span: Span) -> Line
    requires { IsWithin window.ticks span }
    ensures { result ≡ span_line (lit_letter span.mark) window.start span }
{
    span_line(lit_letter(span.mark), window, span)
}

/// `<letter> <from> <to>`: V visible, H hidden, U undecided
pub fn pair_span_line(window: Window, span: Span) -> Line
    requires { IsWithin window.ticks span }
    ensures { result ≡ span_line (pair_letter span.mark) window.start span }
{
    span_line(pair_letter(span.mark), window, span)
}

/// The letter of a mark in a row of light.
fn lit_letter(mark: Mark) -> &'static [u8]
    ensures value { result.now ≡ lit_letter mark }
    ensures short { length result.now ≤ 1 }
{
    match mark {
        Mark::Yes => b"S",
        Mark::No => b"D",
        Mark::Undecided => b"U",
    }
}

/// The letter of a mark in a row of a station.
fn pair_letter(mark: Mark) -> &'static [u8]
    ensures value { result.now ≡ pair_letter mark }
    ensures short { length result.now ≤ 1 }
{
    match mark {
        Mark::Yes => b"V",
        Mark::No => b"H",
        Mark::Undecided => b"U",
    }
}

/// A letter, and the ends of a span.
#[tactic(auto, unfolding(pass_text::specs::DayLayout::span_line))]
fn span_line(letter: &[u8], window: Window, span: Span) -> Line
    requires short { length letter.now ≤ 1 }
    requires within { IsWithin window.ticks span }
    ensures { result ≡ span_line letter.now window.start span }
{
    let mut line = Line::new();
    line.text(letter);
    line.text(b" ");
    line.instant(window.instant_at(span.from), 4);
    line.text(b" ");
    line.instant(window.instant_at(span.to), 4);
    line.text(b"\n");
    line
}
