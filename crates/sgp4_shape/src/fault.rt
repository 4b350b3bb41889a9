//! Why an element set is refused.

/// Why an element set is refused.
#[derive(Clone, Copy, Debug, PartialEq, Eq)]
pub enum SatFault {
    /// The eccentricity is above 0.2.
    Eccentric,
    /// The inclination is above 175 degrees.
    Inclined,
    /// The drag term is above 0.001 in size.
    Drag,
    /// The period may be 225 minutes or more.
    Deep,
    /// The perigee may be lower than the least accepted one, 300 km.
    Low,
    /// The perigee is too near 220 km, where the equations change their form, to tell which holds.
    Edge,
    /// An instant lies more than seven days from the epoch.
    Far,
}
