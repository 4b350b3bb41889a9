//! The fields of line 1.
ghost use Rattle.std.specs.Prelude.{◌≡◌, length, pos, IfOk};
ghost use Rattle.civil_time.specs.Scale.{IsInstantYear};
ghost use Rattle.tle_read.specs.LineOne as spec;

use crate::columns::{byte_in, columns};
use crate::fault::TleFault;
use crate::fields::{catalogue_number, drag_of, type_of, year_of};
use crate::fixed::fixed_point;
use crate::forms::{digit_at, of_form, space_at};
use crate::number::Fixed;
use decimals::Decimal;

/// The epoch: the year, and the day of the year, which begins with day 1.
#[derive(Clone, Copy)]
pub(crate) struct Epoch {
    pub(crate) year: u16,
    pub(crate) day: Fixed,
}

/// The fields of line 1.
#[derive(Clone, Copy)]
pub(crate) struct LineOne {
    pub(crate) number: u32,
    pub(crate) epoch: Epoch,
    pub(crate) drag: Decimal,
    pub(crate) kind: u8,
}

/// The catalogue number, in columns 2 to 18.
#[tactic(auto, unfolding(crate::specs::LineOne::number_part))]
fn number_part(line: &[u8]) -> Result<u32, TleFault>
    requires { length line.now ≡ 69 }
    ensures { result ≡ spec.number_part line.now }
{
    space_at(1, 2, line)?;
    let number = of_form(1, 3, catalogue_number(columns(line, 3, 7)))?;
    space_at(1, 9, line)?;
    space_at(1, 18, line)?;
    Ok(number)
}

/// The epoch, in columns 19 to 44.
#[tactic(auto, unfolding(crate::specs::LineOne::epoch_part))]
fn epoch_part(line: &[u8]) -> Result<Epoch, TleFault>
    requires { length line.now ≡ 69 }
    ensures value { result ≡ spec.epoch_part line.now }
    ensures in_years { IfOk result (λ epoch. IsInstantYear (pos epoch.year)) }
{
    let year = of_form(1, 19, year_of(columns(line, 19, 20)))?;
    let day = of_form(1, 21, fixed_point(columns(line, 21, 32)))?;
    space_at(1, 33, line)?;
    space_at(1, 44, line)?;
    Ok(Epoch { year, day })
}

/// The drag term, in columns 53 to 62.
#[tactic(auto, unfolding(crate::specs::LineOne::drag_part))]
fn drag_part(line: &[u8]) -> Result<Decimal, TleFault>
    requires { length line.now ≡ 69 }
    ensures { result ≡ spec.drag_part line.now }
{
    space_at(1, 53, line)?;
    let drag = of_form(1, 54, drag_of(columns(line, 54, 61)))?;
    space_at(1, 62, line)?;
    Ok(drag)
}

/// The ephemeris type, in columns 63 to 69.
#[tactic(auto, unfolding(crate::specs::LineOne::type_part))]
fn type_part(line: &[u8]) -> Result<u8, TleFault>
    requires { length line.now ≡ 69 }
    ensures { result ≡ spec.type_part line.now }
{
    let kind = of_form(1, 63, type_of(byte_in(63, line)))?;
    space_at(1, 64, line)?;
    digit_at(1, 69, line)?;
    Ok(kind)
}

/// The fields of line 1, from left to right.
#[tactic(auto, unfolding(crate::specs::LineOne::line_one))]
pub(crate) fn line_one(line: &[u8]) -> Result<LineOne, TleFault>
    requires { length line.now ≡ 69 }
    ensures value { result ≡ spec.line_one line.now }
    ensures in_years { IfOk result (λ fields. IsInstantYear (pos fields.epoch.year)) }
{
    let number = number_part(line)?;
    let epoch = epoch_part(line)?;
    let drag = drag_part(line)?;
    let kind = type_part(line)?;
    Ok(LineOne {
        number,
        epoch,
        drag,
        kind,
    })
}
