//! The places of the values that were found.
ghost use Rattle.std.specs.Prelude.{◌≡◌};
ghost use Rattle.pass_words.specs.Found.{places_in};
ghost use Rattle.pass_words.specs.Places.{none_yet, filled};

use crate::key::Opt;
use crate::part::Part;

/// For each key where its value stands, if it was found.
#[derive(Clone, Copy)]
pub(crate) struct Found {
    lat: Option<Part>,
    lon: Option<Part>,
    start: Option<Part>,
    end: Option<Part>,
    res: Option<Part>,
    catalogue: Option<Part>,
    stations: Option<Part>,
    number: Option<Part>,
    at: Option<Part>,
    count: Option<Part>,
    antennas: Option<Part>,
}

impl Found {
    /// Nothing found.
    pub(crate) fn none() -> Found
        ensures { places_in result ≡ none_yet }
    {
        Found {
            lat: None,
            lon: None,
            start: None,
            end: None,
            res: None,
            catalogue: None,
            stations: None,
            number: None,
            at: None,
            count: None,
            antennas: None,
        }
    }

    /// Where the value of the key stands.
    pub(crate) fn place(&self, key: Opt) -> Option<Part>
        ensures { result ≡ places_in self.now key }
    {
        match key {
            Opt::Lat => self.lat,
            Opt::Lon => self.lon,
            Opt::Start => self.start,
            Opt::End => self.end,
            Opt::Res => self.res,
            Opt::Catalogue => self.catalogue,
            Opt::Stations => self.stations,
            Opt::Number => self.number,
            Opt::At => self.at,
            Opt::Count => self.count,
            Opt::Antennas => self.antennas,
        }
    }

    /// Adds the place of a key's value.
    pub(crate) fn add(&mut self, key: Opt, part: Part)
        ensures { places_in self.new ≡ filled key part (places_in self.old) }
    {
        match key {
            Opt::Lat => self.lat = Some(part),
            Opt::Lon => self.lon = Some(part),
            Opt::Start => self.start = Some(part),
            Opt::End => self.end = Some(part),
            Opt::Res => self.res = Some(part),
            Opt::Catalogue => self.catalogue = Some(part),
            Opt::Stations => self.stations = Some(part),
            Opt::Number => self.number = Some(part),
            Opt::At => self.at = Some(part),
            Opt::Count => self.count = Some(part),
            Opt::Antennas => self.antennas = Some(part),
        }
    }
}
