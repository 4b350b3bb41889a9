//! What each line is as a whole: its length, its number and its check digit.
ghost use Rattle.std.specs.Prelude.{◌≡◌, ◌≤◌, length, OnOk};
ghost use Rattle.tle_read.specs.TwoLine as spec;

use crate::check::check_digit;
use crate::columns::byte_in;
use crate::fault::TleFault;

/// The line with this number has 69 columns.
#[tactic(auto, unfolding(crate::specs::TwoLine::of_length))]
fn of_length(number: u8, line: &[u8]) -> Result<(), TleFault>
    requires { length line.now ≤ 16_777_216 }
    ensures value { result ≡ spec.of_length number line.now }
    ensures length { OnOk result (length line.now ≡ 69) }
{
    if line.len() == 69 {
        Ok(())
    } else {
        Err(TleFault::Length {
            line: number,
            found: line.len() as u32,
        })
    }
}

/// The line begins with its number.
#[tactic(auto, unfolding(crate::specs::TwoLine::of_number))]
fn of_number(number: u8, line: &[u8]) -> Result<(), TleFault>
    requires number { number ≤ 9 }
    requires line { length line.now ≡ 69 }
    ensures { result ≡ spec.of_number number line.now }
{
    if byte_in(1, line) == b'0' + number {
        Ok(())
    } else {
        Err(TleFault::LineNumber { line: number })
    }
}

/// A digit in the last column is the check digit.
#[tactic(auto, unfolding(crate::specs::TwoLine::of_check))]
fn of_check(number: u8, line: &[u8]) -> Result<(), TleFault>
    requires { length line.now ≡ 69 }
    ensures { result ≡ spec.of_check number line.now }
{
    let last = byte_in(69, line);
    if !last.is_ascii_digit() {
        return Ok(());
    }
    let found = last - b'0';
    let wanted = check_digit(line);
    if found == wanted {
        Ok(())
    } else {
        Err(TleFault::Check {
            line: number,
            found,
            wanted,
        })
    }
}

/// The lengths of both lines, and then their numbers.
#[tactic(auto, unfolding(crate::specs::TwoLine::of_lines))]
pub(crate) fn of_lines(line1: &[u8], line2: &[u8]) -> Result<(), TleFault>
    requires line1 { length line1.now ≤ 16_777_216 }
    requires line2 { length line2.now ≤ 16_777_216 }
    ensures value { result ≡ spec.of_lines line1.now line2.now }
    ensures lengths { OnOk result ((length line1.now ≡ 69) × (length line2.now ≡ 69)) }
{
    of_length(1, line1)?;
    of_length(2, line2)?;
    of_number(1, line1)?;
    of_number(2, line2)
}

/// The check digits of both lines.
#[tactic(auto, unfolding(crate::specs::TwoLine::of_checks))]
pub(crate) fn of_checks(line1: &[u8], line2: &[u8]) -> Result<(), TleFault>
    requires line1 { length line1.now ≡ 69 }
    requires line2 { length line2.now ≡ 69 }
    ensures { result ≡ spec.of_checks line1.now line2.now }
{
    of_check(1, line1)?;
    of_check(2, line2)
}
