//! The keywords that are read.
ghost use Rattle.std.specs.Prelude.{◌≡◌, ◌<◌};
ghost use Rattle.omm_kvn.specs.Keys.{keyword_of, is_keyword_of, key_of, place_of};

/// A keyword of a message.
#[derive(Clone, Copy, Debug, PartialEq, Eq)]
pub enum Key {
    /// The version of the format.
    Version,
    /// The name of the satellite.
    Name,
    /// Its international designator.
    ObjectId,
    /// The body that it goes round.
    Centre,
    /// The reference frame of the elements.
    Frame,
    /// The time system of the epoch.
    TimeSystem,
    /// The theory of the elements.
    Theory,
    /// The epoch.
    Epoch,
    /// The mean motion, in revolutions per day.
    Motion,
    /// The eccentricity.
    Ecc,
    /// The inclination, in degrees.
    Incl,
    /// The right ascension of the ascending node, in degrees.
    Node,
    /// The argument of perigee, in degrees.
    Argp,
    /// The mean anomaly, in degrees.
    Anomaly,
    /// The catalogue number.
    Number,
    /// The ephemeris type.
    EphemerisType,
    /// The drag term B*, per Earth radius.
    Bstar,
    /// The semi-major axis, which is not read.
    SemiMajorAxis,
    /// A ballistic coefficient, which is not read.
    Bterm,
    /// A coefficient of radiation pressure, which is not read.
    Agom,
}

/// All keywords, in their order.
const KEYS: [Key; 20] = [
    Key::Version,
    Key::Name,
    Key::ObjectId,
    Key::Centre,
    Key::Frame,
    Key::TimeSystem,
    Key::Theory,
    Key::Epoch,
    Key::Motion,
    Key::Ecc,
    Key::Incl,
    Key::Node,
    Key::Argp,
    Key::Anomaly,
    Key::Number,
    Key::EphemerisType,
    Key::Bstar,
    Key::SemiMajorAxis,
    Key::Bterm,
    Key::Agom,
];

impl Key {
    /// The keyword as it stands in a message.
    pub fn keyword(self) -> &'static str
        ensures { result.now ≡ keyword_of self }
    {
        match self {
            Key::Version => "CCSDS_OMM_VERS",
            Key::Name => "OBJECT_NAME",
            Key::ObjectId => "OBJECT_ID",
            Key::Centre => "CENTER_NAME",
            Key::Frame => "REF_FRAME",
            Key::TimeSystem => "TIME_SYSTEM",
            Key::Theory => "MEAN_ELEMENT_THEORY",
            Key::Epoch => "EPOCH",
            Key::Motion => "MEAN_MOTION",
            Key::Ecc => "ECCENTRICITY",
            Key::Incl => "INCLINATION",
            Key::Node => "RA_OF_ASC_NODE",
            Key::Argp => "ARG_OF_PERICENTER",
            Key::Anomaly => "MEAN_ANOMALY",
            Key::Number => "NORAD_CAT_ID",
            Key::EphemerisType => "EPHEMERIS_TYPE",
            Key::Bstar => "BSTAR",
            Key::SemiMajorAxis => "SEMI_MAJOR_AXIS",
            Key::Bterm => "BTERM",
            Key::Agom => "AGOM",
        }
    }

    /// Its place among the keywords, from 0.
    pub(crate) fn place(self) -> usize
        ensures value { result ≡ place_of self }
        ensures bound { result < 20 }
    {
        match self {
            Key::Version => 0,
            Key::Name => 1,
            Key::ObjectId => 2,
            Key::Centre => 3,
            Key::Frame => 4,
            Key::TimeSystem => 5,
            Key::Theory => 6,
            Key::Epoch => 7,
            Key::Motion => 8,
            Key::Ecc => 9,
            Key::Incl => 10,
            Key::Node => 11,
            Key::Argp => 12,
            Key::Anomaly => 13,
            Key::Number => 14,
            Key::EphemerisType => 15,
            Key::Bstar => 16,
            Key::SemiMajorAxis => 17,
            Key::Bterm => 18,
            Key::Agom => 19,
        }
    }
}

/// Whether a word is the keyword.
fn is_keyword_of(key: Key, word: &[u8]) -> bool
    ensures { result ≡ is_keyword_of word.now key }
{
    key.keyword().as_bytes() == word
}

/// The key whose keyword a word is.
#[tactic(auto, unfolding(crate::specs::Keys::key_of))]
pub(crate) fn key_of(word: &[u8]) -> Option<Key>
    ensures { result ≡ key_of word.now }
{
    KEYS.iter().copied().find(|key| is_keyword_of(*key, word))
}
