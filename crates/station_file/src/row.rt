//! A station of a station file.
use crate::mask::MaskRow;
use elements::{Decimal, Text};

/// A station as it was read.
#[derive(Drop)]
pub struct StationRow {
    /// The name, of 1 to 64 bytes.
    pub name: Text,
    /// The geodetic latitude, from -90 to 90 degrees.
    pub lat: Decimal,
    /// The longitude, from -180 to 360 degrees east.
    pub lon: Decimal,
    /// The height above the ellipsoid, from -500 to 9000 metres.
    pub height: Decimal,
    /// The elevation mask.
    pub mask: MaskRow,
}
