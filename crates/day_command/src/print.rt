//! The printing of a result, a line at a time. Each line is one put.
ghost use Rattle.std.specs.Prelude.{All};
ghost use Rattle.day_command.specs.Day.{IsInside, day_text};
ghost use Rattle.pass_text.specs.DayLayout.{day_answer_lines, day_span_lines};
ghost use Rattle.run_ends.specs.Printed.{IsPrinted};

use crate::day::DayResult;
use outside_io::{Failed, Sink};
use pass_text::{END, PASSDAY, full_line, span_line, unresolved_line, window_line};
use run_ends::put_line;
use span_bisect::TrackAnswer;

/// Puts the whole layout.
pub(crate) fn print_day<K: Sink>(day: &DayResult, out: &mut K) -> Result<(), Failed>
    ensures { IsPrinted K.Sink result out.old out.new (day_text day.now) }
{
    put_line(PASSDAY, out)?;
    put_line(window_line(day.window()).bytes(), out)?;
    print_answer(day, out)?;
    put_line(END, out)
}

/// Puts the lines of the answer.
fn print_answer<K: Sink>(day: &DayResult, out: &mut K) -> Result<(), Failed>
    ensures { IsPrinted K.Sink result out.old out.new (day_answer_lines day.now.window.start day.now.answer day.now.list) }
{
    let window = day.window();
    match day.answer() {
        TrackAnswer::Spans(_) => print_spans(day, out),
        TrackAnswer::Unresolved { from, to } => put_line(
            unresolved_line(window, *from, *to).bytes(),
            out,
        ),
        TrackAnswer::Full { at } => put_line(full_line(window, *at).bytes(), out),
        TrackAnswer::Decays { .. } => unreachable!(),
    }
}

/// Puts a line for each span.
fn print_spans<K: Sink>(day: &DayResult, out: &mut K) -> Result<(), Failed>
    requires { All (IsInside day.now.window.ticks) day.now.list }
    ensures { IsPrinted K.Sink result out.old out.new (day_span_lines day.now.window.start day.now.list) }
{
    let window = day.window();
    for k in 0..day.count() {
        if let Some(span) = day.span(k) {
            put_line(span_line(window, span).bytes(), out)?;
        }
    }
    Ok(())
}
