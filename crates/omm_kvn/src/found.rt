//! The places of the values that were found.
ghost use Rattle.std.specs.Prelude.{◌≡◌};
ghost use Rattle.omm_kvn.specs.Found.{places_in, none_yet, filled};

use crate::key::Key;
use crate::place::Place;

/// For each key where its value stands, if it was found.
#[derive(Clone, Copy)]
pub(crate) struct Found {
    places: [Option<Place>; 20],
}

impl Found {
    /// Nothing found.
    pub(crate) fn none() -> Found
        ensures { places_in result ≡ none_yet }
    {
        Found { places: [None; 20] }
    }

    /// Where the value of the key stands.
    pub(crate) fn place(&self, key: Key) -> Option<Place>
        ensures { result ≡ places_in self.now key }
    {
        self.places[key.place()]
    }

    /// Adds the place of a key's value.
    pub(crate) fn add(&mut self, key: Key, value: Place)
        ensures { places_in self.new ≡ filled key value (places_in self.old) }
    {
        self.places[key.place()] = Some(value);
    }
}
