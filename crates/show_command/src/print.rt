//! The printing of the satellites of a catalogue, a line at a time. Each line is one put.
ghost use Rattle.pass_text.specs.ShowLayout.{set_lines, show_layout};
ghost use Rattle.run_ends.specs.Printed.{IsPrinted};

use catalogue::Catalogue;
use outside_io::{Failed, Sink};
use pass_text::{END, PASSSHOW, set_line};
use run_ends::put_line;

/// Puts the whole layout.
pub(crate) fn print_show<K: Sink>(catalogue: &Catalogue, out: &mut K) -> Result<(), Failed>
    ensures { IsPrinted K.Sink result out.old out.new (show_layout catalogue.now) }
{
    put_line(PASSSHOW, out)?;
    print_sets(catalogue, out)?;
    put_line(END, out)
}

/// Puts a line for each satellite.
fn print_sets<K: Sink>(catalogue: &Catalogue, out: &mut K) -> Result<(), Failed>
    ensures { IsPrinted K.Sink result out.old out.new (set_lines catalogue.now) }
{
    for k in 0..catalogue.len() {
        let entry = catalogue.entry(k);
        put_line(set_line(&entry.elements, entry.name.bytes()).bytes(), out)?;
    }
    Ok(())
}
