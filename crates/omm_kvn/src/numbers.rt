//! The values of keys that are numbers or instants.
ghost use Rattle.std.specs.Prelude.{◌≡◌};
ghost use Rattle.omm_kvn.specs.Found.{places_in};
ghost use Rattle.omm_kvn.specs.Numbers as spec;

use crate::digits::short_number;
use crate::fault::OmmFault;
use crate::found::Found;
use crate::key::Key;
use crate::needed::needed;
use crate::place::bytes_at;
use crate::unit::without_unit;
use civil_time::{Instant, read_utc};
use decimals::{Decimal, read_decimal};

/// The epoch.
#[tactic(auto, unfolding(crate::specs::Numbers::epoch_given))]
pub(crate) fn epoch_given(text: &[u8], found: &Found) -> Result<Instant, OmmFault>
    ensures { result ≡ spec.epoch_given text.now (places_in found.now) }
{
    match read_utc(bytes_at(text, needed(found, Key::Epoch)?)) {
        Ok(instant) => Ok(instant),
        Err(_) => Err(OmmFault::Value { key: Key::Epoch }),
    }
}

/// The catalogue number.
#[tactic(auto, unfolding(crate::specs::Numbers::number_given))]
pub(crate) fn number_given(text: &[u8], found: &Found) -> Result<u32, OmmFault>
    ensures { result ≡ spec.number_given text.now (places_in found.now) }
{
    match short_number(bytes_at(text, needed(found, Key::Number)?)) {
        Some(number) => Ok(number),
        None => Err(OmmFault::Value { key: Key::Number }),
    }
}

/// The decimal of a key, without its unit.
#[tactic(auto, unfolding(crate::specs::Numbers::decimal_given))]
pub(crate) fn decimal_given(text: &[u8], found: &Found, key: Key) -> Result<Decimal, OmmFault>
    ensures { result ≡ spec.decimal_given key text.now (places_in found.now) }
{
    let value = without_unit(bytes_at(text, needed(found, key)?));
    match read_decimal(value) {
        Ok(number) => Ok(number),
        Err(_) => Err(OmmFault::Value { key }),
    }
}
