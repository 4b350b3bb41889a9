//! The lines of element sets.
ghost use Rattle.std.specs.Prelude.{◌≡◌, ◌≤◌, ◌+◌, ◌++◌, codes, length};
ghost use Rattle.decimals.specs.PrintedDecimal.{decimal_text};
ghost use Rattle.pass_text.specs.ShowLayout.{set_line};

use crate::line::Line;
use elements::{Decimal, Elements};

/// The first line.
pub const PASSSHOW: &[u8] = b"PASSSHOW 1\n";

/// `SET <number> <epoch> <motion> <ecc> <incl> <node> <argp> <anomaly> <bstar> <name>`
#[tactic(auto, unfolding(crate::specs::ShowLayout::set_line))]
pub fn set_line(elements: &Elements, name: &[u8]) -> Line
    requires { length name.now ≤ 64 }
    ensures { result ≡ set_line elements.now name.now }
{
    let mut line = Line::new();
    line.text(b"SET ");
    line.number(elements.number() as u64);
    line.text(b" ");
    line.instant(elements.epoch(), 9);
    element(&mut line, elements.motion());
    element(&mut line, elements.ecc());
    element(&mut line, elements.incl());
    element(&mut line, elements.node());
    element(&mut line, elements.argp());
    element(&mut line, elements.anomaly());
    element(&mut line, elements.bstar());
    line.text(b" ");
    line.text(name);
    line.text(b"\n");
    line
}

/// Appends a space and a decimal.
fn element(line: &mut Line, number: Decimal)
    requires { length line.old ≤ 298 }
    ensures text { line.new ≡ line.old ++ (codes " " ++ decimal_text number) }
    ensures len { length line.new ≤ length line.old + 22 }
{
    line.text(b" ");
    line.decimal(number);
}
