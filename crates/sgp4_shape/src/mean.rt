//! The mean elements at a time, enclosed.

/// The mean elements at a time. Angles are in radians, and are not reduced.
#[derive(Clone, Copy)]
pub struct Mean<E> {
    /// The semimajor axis, in Earth radii.
    pub am: E,
    /// The eccentricity, raised to its least value.
    pub em: E,
    /// The mean anomaly.
    pub ml: E,
    /// The argument of perigee.
    pub wm: E,
    /// The node.
    pub om: E,
}
