//! The orbit of a message.
ghost use Rattle.std.specs.Prelude.{◌≡◌, pos, IsTrue, IfOk};
ghost use Rattle.exact.specs.Rational.{of_int, ◌≤ℚ◌, ◌<ℚ◌};
ghost use Rattle.decimals.specs.Decimal.{value};
ghost use Rattle.elements.specs.Elements.{IsFromTo};
ghost use Rattle.elements.specs.Ranges as ranges;
ghost use Rattle.omm_kvn.specs.declared.key.Key.TheVariants.{Motion, Ecc};
ghost use Rattle.omm_kvn.specs.Found.{places_in};
ghost use Rattle.omm_kvn.specs.Numbers as spec;
ghost use Rattle.omm_kvn.specs.Ranges.{IsOrbit};

use crate::fault::OmmFault;
use crate::found::Found;
use crate::key::Key;
use crate::numbers::decimal_given;
use decimals::Decimal;

/// The mean motion in revolutions per day, the eccentricity and the angles in degrees.
#[derive(Clone, Copy)]
pub(crate) struct Orbit {
    pub(crate) motion: Decimal,
    pub(crate) ecc: Decimal,
    pub(crate) incl: Decimal,
    pub(crate) node: Decimal,
    pub(crate) argp: Decimal,
    pub(crate) anomaly: Decimal,
}

/// Whether a number is above a whole number.
#[tactic(auto, using(decimals::proofs::UnitsLemmas::value_whole))]
fn is_above(number: Decimal, low: i32) -> bool
    ensures value { result ≡ ranges.below (of_int low) (value number) }
    ensures above { IsTrue result → of_int low <ℚ value number }
{
    Decimal::whole(low).is_below(number)
}

/// Whether a number is below a whole number.
#[tactic(auto, using(decimals::proofs::UnitsLemmas::value_whole))]
fn is_below(number: Decimal, high: i32) -> bool
    ensures value { result ≡ ranges.below (value number) (of_int high) }
    ensures below { IsTrue result → value number <ℚ of_int high }
{
    number.is_below(Decimal::whole(high))
}

/// Whether a number is at least a whole number.
#[tactic(auto, using(decimals::proofs::UnitsLemmas::value_whole))]
fn is_at_least(number: Decimal, low: i32) -> bool
    ensures value { result ≡ ranges.at_most (of_int low) (value number) }
    ensures least { IsTrue result → of_int low ≤ℚ value number }
{
    Decimal::whole(low).is_at_most(number)
}

/// Whether a number is above 0 and below 100.
fn is_motion(number: Decimal) -> bool
    ensures value { result ≡ spec.is_motion number }
    ensures above { IsTrue result → of_int (pos 0) <ℚ value number }
{
    is_above(number, 0) && is_below(number, 100)
}

/// Whether a number is at least 0 and below 1.
fn is_ecc(number: Decimal) -> bool
    ensures value { result ≡ spec.is_ecc number }
    ensures least { IsTrue result → of_int (pos 0) ≤ℚ value number }
    ensures below { IsTrue result → value number <ℚ of_int (pos 1) }
{
    is_at_least(number, 0) && is_below(number, 1)
}

/// Whether a number lies between two whole numbers, both included.
fn is_between(number: Decimal, low: i32, high: i32) -> bool
    ensures value { result ≡ ranges.is_from_to low high number }
    ensures range { IsTrue result → IsFromTo low high (value number) }
{
    number.is_between(low, high)
}

/// A number for which this holds, or else a fault of this key's value.
fn in_range(key: Key, holds: bool, number: Decimal) -> Result<Decimal, OmmFault>
    ensures value { result ≡ spec.in_range key holds number }
    ensures holds { IfOk result (λ d. (d ≡ number) × IsTrue holds) }
{
    if holds {
        Ok(number)
    } else {
        Err(OmmFault::Value { key })
    }
}

/// The mean motion.
#[tactic(auto, unfolding(crate::specs::Numbers::given_where))]
fn motion_given(text: &[u8], found: &Found) -> Result<Decimal, OmmFault>
    ensures value { result ≡ spec.given_where spec.is_motion Motion text.now (places_in found.now) }
    ensures above { IfOk result (λ d. of_int (pos 0) <ℚ value d) }
{
    let number = decimal_given(text, found, Key::Motion)?;
    in_range(Key::Motion, is_motion(number), number)
}

/// The eccentricity.
#[tactic(auto, unfolding(crate::specs::Numbers::given_where))]
fn ecc_given(text: &[u8], found: &Found) -> Result<Decimal, OmmFault>
    ensures value { result ≡ spec.given_where spec.is_ecc Ecc text.now (places_in found.now) }
    ensures least { IfOk result (λ d. of_int (pos 0) ≤ℚ value d) }
    ensures below { IfOk result (λ d. value d <ℚ of_int (pos 1)) }
{
    let number = decimal_given(text, found, Key::Ecc)?;
    in_range(Key::Ecc, is_ecc(number), number)
}

/// An angle that lies between two whole numbers, both included.
#[tactic(auto, unfolding(crate::specs::Numbers::given_where))]
fn angle_given(
    text: &[u8],
    found: &Found,
    key: Key,
    low: i32,
    high: i32,
) -> Result<Decimal, OmmFault>
    ensures value { result ≡ spec.given_where (ranges.is_from_to low high) key text.now (places_in found.now) }
    ensures range { IfOk result (λ d. IsFromTo low high (value d)) }
{
    let number = decimal_given(text, found, key)?;
    in_range(key, is_between(number, low, high), number)
}

/// The mean motion, the eccentricity and the angles.
#[tactic(auto, unfolding(crate::specs::Numbers::orbit_given))]
pub(crate) fn orbit_given(text: &[u8], found: &Found) -> Result<Orbit, OmmFault>
    ensures value { result ≡ spec.orbit_given text.now (places_in found.now) }
    ensures ranges { IfOk result IsOrbit }
{
    let motion = motion_given(text, found)?;
    let ecc = ecc_given(text, found)?;
    let incl = angle_given(text, found, Key::Incl, 0, 180)?;
    let node = angle_given(text, found, Key::Node, -360, 360)?;
    let argp = angle_given(text, found, Key::Argp, -360, 360)?;
    let anomaly = angle_given(text, found, Key::Anomaly, -360, 360)?;
    Ok(Orbit {
        motion,
        ecc,
        incl,
        node,
        argp,
        anomaly,
    })
}
