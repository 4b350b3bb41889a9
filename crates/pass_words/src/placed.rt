//! The places of the values of all keys of a command.
ghost use Rattle.std.specs.Prelude.{◌≡◌};
ghost use Rattle.pass_words.specs.Found.{found_places, places_in};
ghost use Rattle.pass_words.specs.Placed.{first_missing, placed, text_at, text_of};

use crate::fault::UsageFault;
use crate::found::Found;
use crate::key::Opt;
use crate::part::Part;
use crate::scan::scan;
use elements::Text;

/// The first of the keys whose value was not found.
fn first_missing(keys: &[Opt], found: &Found) -> Option<Opt>
    ensures { result ≡ first_missing keys.now (places_in found.now) }
{
    keys.iter().copied().find(|key| found.place(*key).is_none())
}

/// Where the values of a command's keys stand in the words, or the first fault: a word that is no part of an option
/// and a key that stood before, from left to right, and then a key that is missing.
pub(crate) fn placed(keys: &[Opt], words: &[Text]) -> Result<Found, UsageFault>
    ensures { found_places result ≡ placed keys.now words.now }
{
    let found = scan(keys, words)?;
    match first_missing(keys, &found) {
        Some(key) => Err(UsageFault::Missing { key }),
        None => Ok(found),
    }
}

/// The bytes of a part of the words, of which there are none where no word has its number.
pub fn text_at(words: &[Text], part: Part) -> &[u8]
    ensures { result.now ≡ text_at words.now part }
{
    match words.get(part.word.saturating_sub(1) as usize) {
        Some(word) => match word.bytes().get(part.from as usize..) {
            Some(rest) => rest,
            None => &[],
        },
        None => &[],
    }
}

/// The value of a key.
pub(crate) fn text_of<'a>(words: &'a [Text], found: &Found, key: Opt) -> &'a [u8]
    ensures { result.now ≡ text_of words.now (places_in found.now) key }
{
    match found.place(key) {
        Some(part) => text_at(words, part),
        None => &[],
    }
}
