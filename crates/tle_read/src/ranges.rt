//! The elements that the fields of both lines write, or why they write none.
ghost use Rattle.std.specs.Prelude.{true, ◌≡◌, ◌≤◌, pos, OnOk};
ghost use Rattle.civil_time.specs.Scale.{IsInstantYear};
ghost use Rattle.tle_read.specs.Fields.{IsBelowOne};
ghost use Rattle.tle_read.specs.Ranges as spec;
ghost use Rattle.tle_read.specs.TwoLine.{elements_value};

use crate::fault::TleFault;
use crate::line_one::{Epoch, LineOne};
use crate::line_two::LineTwo;
use crate::number::Fixed;
use civil_time::{Instant, days_in_year};
use elements::Elements;

/// The nanoseconds of a day.
const DAY_NANOS: u64 = 86_400_000_000_000;

/// Whether the day is one of the year.
fn is_day_of(year: u16, day: Fixed) -> bool
    requires { year ≤ 9999 }
    ensures { result ≡ spec.is_day_of year day }
{
    let unit = day.unit();
    unit <= day.digits() && day.digits() < (u64::from(days_in_year(year)) + 1) * unit
}

/// When the epoch is.
fn epoch_of(epoch: Epoch) -> Instant
    requires year { IsInstantYear (pos epoch.year) }
    requires day { spec.is_day_of epoch.year epoch.day ≡ true }
    ensures { result ≡ spec.epoch_of epoch }
{
    let nanos = epoch.day.digits() * (DAY_NANOS / epoch.day.unit());
    Instant::of_year_day(epoch.year, nanos - DAY_NANOS)
}

/// Both lines have one catalogue number.
#[tactic(auto, unfolding(crate::specs::Ranges::of_one_number))]
fn of_one_number(first: &LineOne, second: &LineTwo) -> Result<(), TleFault>
    ensures { result ≡ spec.of_one_number first.now second.now }
{
    if first.number == second.number {
        Ok(())
    } else {
        Err(TleFault::NumbersDiffer)
    }
}

/// The ephemeris type is 0 or 2.
#[tactic(auto, unfolding(crate::specs::Ranges::of_theory))]
fn of_theory(first: &LineOne) -> Result<(), TleFault>
    ensures { result ≡ spec.of_theory first.now }
{
    if first.kind == 0 || first.kind == 2 {
        Ok(())
    } else {
        Err(TleFault::Theory)
    }
}

/// What holds, or else the value that begins in this column is out of its range.
#[tactic(auto, unfolding(crate::specs::Ranges::in_range))]
fn in_range(line: u8, first: u8, holds: bool) -> Result<(), TleFault>
    ensures value { result ≡ spec.in_range line first holds }
    ensures holds { OnOk result (holds ≡ true) }
{
    if holds {
        Ok(())
    } else {
        Err(TleFault::Range { line, first })
    }
}

/// The values are in their ranges: the day, the four angles, and the mean motion.
#[tactic(auto, unfolding(crate::specs::Ranges::of_ranges))]
fn of_ranges(first: &LineOne, second: &LineTwo) -> Result<(), TleFault>
    requires { IsInstantYear (pos first.now.epoch.year) }
    ensures value { result ≡ spec.of_ranges first.now second.now }
    ensures ranges { OnOk result (spec.AreInRange first.now second.now) }
{
    in_range(1, 21, is_day_of(first.epoch.year, first.epoch.day))?;
    in_range(2, 9, second.incl.is_at_most(180))?;
    in_range(2, 18, second.node.is_at_most(360))?;
    in_range(2, 35, second.argp.is_at_most(360))?;
    in_range(2, 44, second.anomaly.is_at_most(360))?;
    in_range(2, 53, second.motion.digits() > 0)
}

/// The elements that fields in their ranges write.
fn elements_of(first: &LineOne, second: &LineTwo) -> Elements
    requires year { IsInstantYear (pos first.now.epoch.year) }
    requires ecc { IsBelowOne second.now.ecc }
    requires ranges { spec.AreInRange first.now second.now }
    ensures { result ≡ spec.elements_of first.now second.now }
{
    Elements::make(
        first.number,
        epoch_of(first.epoch),
        second.motion.decimal(),
        second.ecc.decimal(),
        second.incl.decimal(),
        second.node.decimal(),
        second.argp.decimal(),
        second.anomaly.decimal(),
        first.drag,
    )
}

/// The elements that the fields of both lines write, or the first fault: one catalogue number, then the theory, then
/// the ranges.
#[tactic(auto, unfolding(crate::specs::TwoLine::elements_value))]
pub(crate) fn elements_value(first: &LineOne, second: &LineTwo) -> Result<Elements, TleFault>
    requires year { IsInstantYear (pos first.now.epoch.year) }
    requires ecc { IsBelowOne second.now.ecc }
    ensures { result ≡ elements_value first.now second.now }
{
    of_one_number(first, second)?;
    of_theory(first)?;
    of_ranges(first, second)?;
    Ok(elements_of(first, second))
}
