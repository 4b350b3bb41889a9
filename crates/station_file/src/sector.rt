//! A sector of an elevation mask.
use elements::Decimal;

/// A sector of an elevation mask. It reaches to the border of the next one.
#[derive(Clone, Copy, Debug)]
pub struct Sector {
    /// The azimuth at which the sector begins, in degrees from north over east.
    pub border: Decimal,
    /// The least elevation at which the sky is free in the sector, in degrees.
    pub floor: Decimal,
}
