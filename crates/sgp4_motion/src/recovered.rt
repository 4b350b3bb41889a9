//! The recovered motion of an element set, enclosed.

/// What is recovered from an element set. Angles are in radians, lengths in Earth radii.
#[derive(Clone, Copy)]
pub struct Recovered<E> {
    /// The inclination.
    pub i: E,
    /// The cosine of the inclination.
    pub c: E,
    /// The sine of the inclination.
    pub si: E,
    /// The eccentricity.
    pub e: E,
    /// The recovered mean motion, in radians per 16,384 minutes.
    pub n0: E,
    /// The recovered semimajor axis.
    pub a: E,
    /// 1 - e^2.
    pub bb: E,
    /// The square root of 1 - e^2.
    pub b0: E,
    /// The semilatus rectum.
    pub p: E,
    /// The radius of the perigee.
    pub rp: E,
    /// 3 c^2 - 1.
    pub con41: E,
    /// 1 - 5 c^2.
    pub con42: E,
    /// Whether the perigee is below 220 km, where the equations take their simple form.
    pub simple: bool,
}
