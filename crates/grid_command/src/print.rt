//! The printing of counts, a line at a time. Each line is one put.
ghost use Rattle.std.specs.Prelude.{◌≤◌, length};
ghost use Rattle.grid_command.specs.Printed.{head_text, others_text, ticks_text};
ghost use Rattle.plan_text.specs.GridLayout.{count_line, grid_layout, spans_line};
ghost use Rattle.run_ends.specs.Printed.{IsPrinted};

use outside_io::{Failed, Sink};
use pass_text::END;
use plan_text::{PASSGRID, Summary, count_line, spans_line};
use run_ends::put_line;

/// Puts the whole layout.
pub(crate) fn print_grid<K: Sink>(counts: Summary, out: &mut K) -> Result<(), Failed>
    ensures { IsPrinted K.Sink result out.old out.new (grid_layout counts) }
{
    print_head(counts, out)?;
    print_ticks(counts, out)?;
    print_others(counts, out)?;
    put_count(b"CELLS", counts.cells, out)?;
    put_line(END, out)
}

/// Puts the heading and the counts of satellites.
fn print_head<K: Sink>(counts: Summary, out: &mut K) -> Result<(), Failed>
    ensures { IsPrinted K.Sink result out.old out.new (head_text counts) }
{
    put_line(PASSGRID, out)?;
    put_count(b"SATS", counts.sats, out)?;
    put_count(b"REFUSED", counts.refused, out)
}

/// Puts the counts of spans and of their ticks.
fn print_ticks<K: Sink>(counts: Summary, out: &mut K) -> Result<(), Failed>
    ensures { IsPrinted K.Sink result out.old out.new (ticks_text counts) }
{
    put_spans(b"VISIBLE", counts.visible_spans, counts.visible_ticks, out)?;
    put_spans(b"HIDDEN", counts.hidden_spans, counts.hidden_ticks, out)?;
    put_spans(
        b"UNDECIDED",
        counts.undecided_spans,
        counts.undecided_ticks,
        out,
    )
}

/// Puts the counts of pairs that are not spans.
fn print_others<K: Sink>(counts: Summary, out: &mut K) -> Result<(), Failed>
    ensures { IsPrinted K.Sink result out.old out.new (others_text counts) }
{
    put_count(b"UNRESOLVED", counts.unresolved, out)?;
    put_count(b"FULL", counts.full, out)?;
    put_count(b"DECAYS", counts.decays, out)
}

/// Puts the line of a count.
fn put_count<K: Sink>(word: &[u8], count: u64, out: &mut K) -> Result<(), Failed>
    requires { length word.now ≤ 10 }
    ensures { IsPrinted K.Sink result out.old out.new (count_line word.now count) }
{
    put_line(count_line(word, count).bytes(), out)
}

/// Puts the line of a count of spans and of their ticks.
fn put_spans<K: Sink>(word: &[u8], spans: u64, ticks: u64, out: &mut K) -> Result<(), Failed>
    requires { length word.now ≤ 10 }
    ensures { IsPrinted K.Sink result out.old out.new (spans_line word.now spans ticks) }
{
    put_line(spans_line(word, spans, ticks).bytes(), out)
}
