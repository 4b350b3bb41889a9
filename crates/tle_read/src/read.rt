//! Reads the two lines of an element set.
ghost use Rattle.std.specs.Prelude.{◌≡◌, ◌≤◌, length};
ghost use Rattle.tle_read.specs.TwoLine as spec;

use crate::columns::trimmed;
use crate::fault::TleFault;
use crate::line_one::line_one;
use crate::line_two::line_two;
use crate::ranges::elements_value;
use crate::whole::{of_checks, of_lines};
use elements::Elements;

/// The element set that two lines write, or their first fault. Spaces, tabs and carriage returns at the end of a line
/// are dropped first. The format is that of two-line element sets, as described with Spacetrack Report No. 3.
#[tactic(auto, unfolding(crate::specs::TwoLine::tle_value))]
pub fn read_pair(line1: &[u8], line2: &[u8]) -> Result<Elements, TleFault>
    requires line1 { length line1.now ≤ 16_777_216 }
    requires line2 { length line2.now ≤ 16_777_216 }
    ensures { result ≡ spec.tle_value line1.now line2.now }
{
    read_trimmed(trimmed(line1), trimmed(line2))
}

/// The same of lines without blanks at their ends.
#[tactic(auto, unfolding(crate::specs::TwoLine::lines_value))]
fn read_trimmed(line1: &[u8], line2: &[u8]) -> Result<Elements, TleFault>
    requires line1 { length line1.now ≤ 16_777_216 }
    requires line2 { length line2.now ≤ 16_777_216 }
    ensures { result ≡ spec.lines_value line1.now line2.now }
{
    of_lines(line1, line2)?;
    of_checks(line1, line2)?;
    let first = line_one(line1)?;
    let second = line_two(line2)?;
    elements_value(&first, &second)
}
