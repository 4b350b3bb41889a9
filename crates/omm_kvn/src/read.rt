//! The reading of a message.
ghost use Rattle.std.specs.Prelude.{◌≡◌, ◌≤◌, length};
ghost use Rattle.omm_kvn.specs.Found.{places_in};
ghost use Rattle.omm_kvn.specs.Messages as spec;
ghost use Rattle.omm_kvn.specs.Ranges.{IsOrbit};

use crate::fault::OmmFault;
use crate::found::Found;
use crate::key::Key;
use crate::message::Message;
use crate::needed::{of_header, of_type};
use crate::numbers::{decimal_given, epoch_given, number_given};
use crate::orbit::{Orbit, orbit_given};
use crate::place::Place;
use crate::scan::scan;
use decimals::Decimal;
use elements::{Elements, Instant};

/// The element set of these numbers.
#[tactic(auto, unfolding(exact::specs::Rational::of_int))]
fn elements_of(number: u32, epoch: Instant, orbit: Orbit, bstar: Decimal) -> Elements
    requires { IsOrbit orbit }
    ensures { result ≡ spec.elements_of number epoch orbit bstar }
{
    Elements::make(
        number,
        epoch,
        orbit.motion,
        orbit.ecc,
        orbit.incl,
        orbit.node,
        orbit.argp,
        orbit.anomaly,
        bstar,
    )
}

/// The element set of the values that were found, or the first fault in the order of the keys.
#[tactic(auto, unfolding(crate::specs::Messages::elements_given))]
fn elements_given(text: &[u8], found: &Found) -> Result<Elements, OmmFault>
    ensures { result ≡ spec.elements_given text.now (places_in found.now) }
{
    of_header(text, found)?;
    let epoch = epoch_given(text, found)?;
    let orbit = orbit_given(text, found)?;
    let number = number_given(text, found)?;
    of_type(text, found)?;
    let bstar = decimal_given(text, found, Key::Bstar)?;
    Ok(elements_of(number, epoch, orbit, bstar))
}

/// Where the name stands, and 0 to 0 where there is none.
fn name_place(found: &Found) -> Place
    ensures { result ≡ spec.name_place (places_in found.now) }
{
    match found.place(Key::Name) {
        Some(place) => place,
        None => Place { from: 0, to: 0 },
    }
}

/// The message that a text writes, or its first fault: of the lines in their order, and then of the keys in theirs.
/// Lines are those between line feeds, counted from 1. The format is that of orbit mean-elements messages in
/// keyword-value notation, CCSDS 502.0.
#[tactic(auto, unfolding(crate::specs::Messages::message_value))]
pub fn read_message(text: &[u8]) -> Result<Message, OmmFault>
    requires { length text.now ≤ 16_777_216 }
    ensures { result ≡ spec.message_value text.now }
{
    let found = scan(text)?;
    let elements = elements_given(text, &found)?;
    let name = name_place(&found);
    Ok(Message {
        elements,
        name_from: name.from,
        name_to: name.to,
    })
}
