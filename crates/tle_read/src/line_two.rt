//! The fields of line 2.
ghost use Rattle.std.specs.Prelude.{◌≡◌, ◌≤◌, length, IfOk};
ghost use Rattle.tle_read.specs.Fields.{IsBelowOne};
ghost use Rattle.tle_read.specs.LineTwo as spec;

use crate::columns::columns;
use crate::fault::TleFault;
use crate::fields::{catalogue_number, eccentricity_of};
use crate::fixed::fixed_point;
use crate::forms::{digit_at, of_form, space_at};
use crate::number::Fixed;

/// The fields of line 2: the mean motion in revolutions per day, the angles in degrees.
#[derive(Clone, Copy)]
pub(crate) struct LineTwo {
    pub(crate) number: u32,
    pub(crate) incl: Fixed,
    pub(crate) node: Fixed,
    pub(crate) ecc: Fixed,
    pub(crate) argp: Fixed,
    pub(crate) anomaly: Fixed,
    pub(crate) motion: Fixed,
}

/// The catalogue number, in columns 2 to 8.
#[tactic(auto, unfolding(crate::specs::LineTwo::number_part))]
fn number_part(line: &[u8]) -> Result<u32, TleFault>
    requires { length line.now ≡ 69 }
    ensures { result ≡ spec.number_part line.now }
{
    space_at(2, 2, line)?;
    let number = of_form(2, 3, catalogue_number(columns(line, 3, 7)))?;
    space_at(2, 8, line)?;
    Ok(number)
}

/// The angle in eight columns from this one on, before a space.
#[tactic(auto, unfolding(crate::specs::LineTwo::angle_part))]
fn angle_part(first: u8, line: &[u8]) -> Result<Fixed, TleFault>
    requires from_one { 1 ≤ first }
    requires inside { first ≤ 61 }
    requires line { length line.now ≡ 69 }
    ensures { result ≡ spec.angle_part first line.now }
{
    let from = usize::from(first);
    let angle = of_form(2, first, fixed_point(columns(line, from, from + 7)))?;
    space_at(2, first + 8, line)?;
    Ok(angle)
}

/// The eccentricity, in columns 27 to 34.
#[tactic(auto, unfolding(crate::specs::LineTwo::eccentricity_part))]
fn eccentricity_part(line: &[u8]) -> Result<Fixed, TleFault>
    requires { length line.now ≡ 69 }
    ensures value { result ≡ spec.eccentricity_part line.now }
    ensures below_one { IfOk result IsBelowOne }
{
    let ecc = of_form(2, 27, eccentricity_of(columns(line, 27, 33)))?;
    space_at(2, 34, line)?;
    Ok(ecc)
}

/// The mean motion, in columns 53 to 69.
#[tactic(auto, unfolding(crate::specs::LineTwo::motion_part))]
fn motion_part(line: &[u8]) -> Result<Fixed, TleFault>
    requires { length line.now ≡ 69 }
    ensures { result ≡ spec.motion_part line.now }
{
    let motion = of_form(2, 53, fixed_point(columns(line, 53, 63)))?;
    digit_at(2, 69, line)?;
    Ok(motion)
}

/// The fields of line 2, from left to right.
#[tactic(auto, unfolding(crate::specs::LineTwo::line_two))]
pub(crate) fn line_two(line: &[u8]) -> Result<LineTwo, TleFault>
    requires { length line.now ≡ 69 }
    ensures value { result ≡ spec.line_two line.now }
    ensures below_one { IfOk result (λ fields. IsBelowOne fields.ecc) }
{
    let number = number_part(line)?;
    let incl = angle_part(9, line)?;
    let node = angle_part(18, line)?;
    let ecc = eccentricity_part(line)?;
    let argp = angle_part(35, line)?;
    let anomaly = angle_part(44, line)?;
    let motion = motion_part(line)?;
    Ok(LineTwo {
        number,
        incl,
        node,
        ecc,
        argp,
        anomaly,
        motion,
    })
}
