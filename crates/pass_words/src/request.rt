//! What the words ask for.
use crate::part::Part;
use elements::{Decimal, Instant, Window};

/// What the words ask for: a command and the values of its options.
#[derive(Clone, Copy, Debug)]
pub enum Request {
    /// The daylight of one place over a window: latitude from -90 to 90 and longitude from -180 to 360, in degrees.
    Day {
        lat: Decimal,
        lon: Decimal,
        window: Window,
    },
    /// When the stations of a file see the satellites of a catalogue over a window. Both are the names of files.
    Plan {
        catalogue: Part,
        stations: Part,
        window: Window,
    },
    /// The element sets of a file that are nearest to an instant. The catalogue is the file's name.
    Show {
        catalogue: Part,
        start: Instant,
    },
    /// The position of the satellite with this number at an instant, by its element set of a file that is nearest to it.
    /// The catalogue is the file's name, and the number is below 1,000,000,000.
    Locate {
        catalogue: Part,
        number: u32,
        at: Instant,
    },
    /// The generated catalogue of so many satellites, from 1 to 1,000, planned and counted.
    Grid {
        count: u32,
    },
    /// The contacts of a plan, as of `Plan`, allotted to so many antennas of each station, from 1 to 64.
    Book {
        catalogue: Part,
        stations: Part,
        window: Window,
        antennas: u32,
    },
}
