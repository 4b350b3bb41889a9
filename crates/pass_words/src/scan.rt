//! The words after the command, read from left to right.
ghost use Rattle.std.specs.Prelude.{◌≡◌, length, slice_index_or, [], ◌<◌, ◌≤◌, ◌^◌};
ghost use Rattle.pass_words.specs.Found.{found_places, places_in};
ghost use Rattle.pass_words.specs.Options.{option_roles, options};
ghost use Rattle.pass_words.specs.Taken.{taken};

use crate::fault::UsageFault;
use crate::found::Found;
use crate::key::Opt;
use crate::role::{Role, role_of};
use elements::Text;

/// The bytes of the word at an index, of which there are none past the last word.
fn word_at(words: &[Text], index: usize) -> &[u8]
    ensures { result.now ≡ slice_index_or words.now index [] }
{
    match words.get(index) {
        Some(word) => word.bytes(),
        None => &[],
    }
}

/// Adds the word with this number and role to what was found.
fn taken(mut found: Found, at: u64, role: Role) -> Result<Found, UsageFault>
    ensures { found_places result ≡ taken at (places_in found) role }
{
    match role {
        Role::Opens { key, part } => {
            if found.place(key).is_some() {
                return Err(UsageFault::Twice { key });
            }
            found.add(key, part);
            Ok(found)
        }
        Role::Value => Ok(found),
        Role::Stray => Err(UsageFault::Word { at }),
    }
}

/// Where the values of the options after the first word stand, or the first word that is no part of an option or
/// has a key that stood before.
pub(crate) fn scan(keys: &[Opt], words: &[Text]) -> Result<Found, UsageFault>
    ensures { found_places result ≡ options (option_roles keys.now words.now) }
{
    let mut found = Found::none();
    for index in 1..words.len() {
        let at = index as u64 + 1;
        let before = word_at(words, index - 1);
        let word = word_at(words, index);
        let next = word_at(words, index + 1);
        found = taken(found, at, role_of(keys, at, before, word, next))?;
    }
    Ok(found)
}
