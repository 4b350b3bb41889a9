//! The faults of station files.
ghost use Rattle.std.specs.Prelude.{◌≡◌};
ghost use Rattle.station_file.specs.Keys.{name_of};

/// A key of a station file, or what stands for one in a fault.
#[derive(Clone, Copy, Debug, PartialEq, Eq)]
pub enum StKey {
    /// The version of the format.
    Version,
    /// The list of the stations, or one of them.
    Station,
    /// The name of a station.
    Name,
    /// The latitude, in degrees.
    Lat,
    /// The longitude, in degrees east.
    Lon,
    /// The height, in metres.
    Height,
    /// The one elevation of a flat mask, in degrees.
    Mask,
    /// The azimuths at which the sectors of a mask begin, in degrees.
    Borders,
    /// The elevations of the sectors of a mask, in degrees.
    Masks,
    /// A key that has no place there.
    Other,
    /// The offset of UT1 from UTC, in milliseconds.
    Dut1,
}

impl StKey {
    /// The name of the key, in lower case.
    pub fn name(self) -> &'static str
        ensures { result.now ≡ name_of self }
    {
        match self {
            StKey::Version => "version",
            StKey::Station => "station",
            StKey::Name => "name",
            StKey::Lat => "lat",
            StKey::Lon => "lon",
            StKey::Height => "height",
            StKey::Mask => "mask",
            StKey::Borders => "borders",
            StKey::Masks => "masks",
            StKey::Other => "other",
            StKey::Dut1 => "dut1_ms",
        }
    }
}

/// Why bytes are no station file. An index is the number of a station in the file, counted from 1, and 0 for the
/// file itself.
#[derive(Clone, Copy, Debug, PartialEq, Eq)]
pub enum StFault {
    /// The bytes are not UTF-8.
    NotUtf8,
    /// The text is not TOML.
    NotToml,
    /// A key is missing where it must stand, has no place where it stands, or its value is of another form.
    Shape { index: u32, key: StKey },
    /// There is no station.
    Empty,
    /// There are more than 64 stations.
    TooMany,
    /// The value of a key is out of its range.
    Range { index: u32, key: StKey },
    /// The station has the name of an earlier one.
    Twice { index: u32 },
    /// The borders of the station's mask do not go round the horizon as they must, or its elevations are not as many.
    Mask { index: u32 },
    /// There is not enough memory.
    OutOfMemory,
}
