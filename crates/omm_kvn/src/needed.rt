//! Keys that a message must have, and the values of keys that are words.
ghost use Rattle.std.specs.Prelude.{◌≡◌, codes};
ghost use Rattle.std.specs.Str.{bytes_eq};
ghost use Rattle.omm_kvn.specs.Found.{places_in};
ghost use Rattle.omm_kvn.specs.Needed as spec;
ghost use Rattle.omm_kvn.specs.declared.key.Key.TheVariants.{Version, Theory, EphemerisType};

use crate::fault::OmmFault;
use crate::found::Found;
use crate::key::Key;
use crate::place::{Place, bytes_at};

/// The place of a key's value, which must be there.
pub(crate) fn needed(found: &Found, key: Key) -> Result<Place, OmmFault>
    ensures { result ≡ spec.needed key (places_in found.now key) }
{
    match found.place(key) {
        Some(place) => Ok(place),
        None => Err(OmmFault::Missing { key }),
    }
}

/// What holds, or else the value of this key is none that is read.
fn supported(key: Key, holds: bool) -> Result<(), OmmFault>
    ensures { result ≡ spec.supported key holds }
{
    if holds {
        Ok(())
    } else {
        Err(OmmFault::Unsupported { key })
    }
}

/// The word is the value of the key, if the key is there.
fn may_be(text: &[u8], found: &Found, key: Key, word: &[u8]) -> Result<(), OmmFault>
    ensures { result ≡ spec.may_pass key (λ value. bytes_eq value word.now) text.now (places_in found.now key) }
{
    match found.place(key) {
        Some(place) => supported(key, bytes_at(text, place) == word),
        None => Ok(()),
    }
}

/// The version is one that is read.
fn of_version(text: &[u8], found: &Found) -> Result<(), OmmFault>
    ensures { result ≡ spec.must_pass Version spec.is_version text.now (places_in found.now Version) }
{
    let value = bytes_at(text, needed(found, Key::Version)?);
    supported(
        Key::Version,
        value == "2.0".as_bytes() || value == "3.0".as_bytes(),
    )
}

/// The theory is one that is read.
fn of_theory(text: &[u8], found: &Found) -> Result<(), OmmFault>
    ensures { result ≡ spec.must_pass Theory spec.is_theory text.now (places_in found.now Theory) }
{
    let value = bytes_at(text, needed(found, Key::Theory)?);
    supported(
        Key::Theory,
        value == "SGP4".as_bytes() || value == "SGP/SGP4".as_bytes(),
    )
}

/// The ephemeris type is one that is read, if it is there.
pub(crate) fn of_type(text: &[u8], found: &Found) -> Result<(), OmmFault>
    ensures { result ≡ spec.may_pass EphemerisType spec.is_type text.now (places_in found.now EphemerisType) }
{
    match found.place(Key::EphemerisType) {
        Some(place) => {
            let value = bytes_at(text, place);
            supported(
                Key::EphemerisType,
                value.is_empty() || value == "0".as_bytes() || value == "2".as_bytes(),
            )
        }
        None => Ok(()),
    }
}

/// The version, the centre, the frame, the time system and the theory are those that are read.
#[tactic(auto, unfolding(crate::specs::Needed::of_header))]
pub(crate) fn of_header(text: &[u8], found: &Found) -> Result<(), OmmFault>
    ensures { result ≡ spec.of_header text.now (places_in found.now) }
{
    of_version(text, found)?;
    may_be(text, found, Key::Centre, "EARTH".as_bytes())?;
    may_be(text, found, Key::Frame, "TEME".as_bytes())?;
    may_be(text, found, Key::TimeSystem, "UTC".as_bytes())?;
    of_theory(text, found)
}
