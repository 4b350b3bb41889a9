//! The printing of the row of a satellite's light. Each line is one put.
ghost use Rattle.plan_command.specs.Parts.{IsItsAnswer, IsItsTrack, after_text, light_text, spans_text};
ghost use Rattle.plan_text.specs.RowLines.{lit_letter};
ghost use Rattle.run_ends.specs.Printed.{IsPrinted};

use outside_io::{Failed, Sink};
use plan_core::{Plan, Track, TrackAnswer};
use plan_text::{lit_line, lit_span_line};
use run_ends::put_line;

/// Puts the row of the light of the satellite with a catalogue number.
pub(crate) fn print_light<K: Sink>(
    plan: &Plan,
    number: u32,
    answer: &TrackAnswer,
    out: &mut K,
) -> Result<(), Failed>
    requires { IsItsAnswer plan.now answer.now }
    ensures { IsPrinted K.Sink result out.old out.new (light_text plan.now number answer.now) }
{
    put_line(lit_line(plan.window(), number, answer).bytes(), out)?;
    print_after(plan, answer, out)
}

/// Puts the spans of an answer, if it has any.
fn print_after<K: Sink>(plan: &Plan, answer: &TrackAnswer, out: &mut K) -> Result<(), Failed>
    requires { IsItsAnswer plan.now answer.now }
    ensures { IsPrinted K.Sink result out.old out.new (after_text lit_letter plan.now answer.now) }
{
    match answer {
        TrackAnswer::Spans(track) => print_spans(plan, track, out),
        TrackAnswer::Unresolved { .. } => Ok(()),
        TrackAnswer::Full { .. } => Ok(()),
        TrackAnswer::Decays { .. } => Ok(()),
    }
}

/// Puts a line for each span of a track.
fn print_spans<K: Sink>(plan: &Plan, track: &Track, out: &mut K) -> Result<(), Failed>
    requires { IsItsTrack plan.now track.now }
    ensures { IsPrinted K.Sink result out.old out.new (spans_text lit_letter plan.now track.now) }
{
    let window = plan.window();
    for k in 0..track.count() {
        if let Some(span) = plan.span(track, k) {
            put_line(lit_span_line(window, span).bytes(), out)?;
        }
    }
    Ok(())
}
