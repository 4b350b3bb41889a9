//! The keys of options.
ghost use Rattle.std.specs.Prelude.{◌≡◌};
ghost use Rattle.pass_words.specs.Keys.{name_of, is_word_of, key_of};

/// A key of an option.
#[derive(Clone, Copy, Debug, PartialEq, Eq)]
pub enum Opt {
    /// The latitude, in degrees.
    Lat,
    /// The longitude, in degrees east.
    Lon,
    /// The first instant of the window.
    Start,
    /// The last instant of the window.
    End,
    /// The resolution of the window, in seconds.
    Res,
    /// The file of element sets.
    Catalogue,
    /// The file of stations.
    Stations,
    /// The catalogue number of a satellite.
    Number,
    /// The instant of a position.
    At,
    /// How many satellites a generated catalogue has.
    Count,
    /// How many antennas each station has.
    Antennas,
}

impl Opt {
    /// The name of the key, which stands in a word after two dashes.
    pub fn name(self) -> &'static str
        ensures { result.now ≡ name_of self }
    {
        match self {
            Opt::Lat => "lat",
            Opt::Lon => "lon",
            Opt::Start => "start",
            Opt::End => "end",
            Opt::Res => "res",
            Opt::Catalogue => "catalogue",
            Opt::Stations => "stations",
            Opt::Number => "number",
            Opt::At => "at",
            Opt::Count => "count",
            Opt::Antennas => "antennas",
        }
    }
}

/// Whether a word is two dashes and the name of the key.
fn is_word_of(key: Opt, word: &[u8]) -> bool
    ensures { result ≡ is_word_of word.now key }
{
    match word {
        [b'-', b'-', name @ ..] => key.name().as_bytes() == name,
        _ => false,
    }
}

/// The key that a word names alone, if it is one of these.
pub(crate) fn key_of(keys: &[Opt], word: &[u8]) -> Option<Opt>
    ensures { result ≡ key_of keys.now word.now }
{
    keys.iter().copied().find(|key| is_word_of(*key, word))
}
