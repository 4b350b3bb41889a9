//! The constants of an element set, enclosed.

/// The constants of an element set. Time is counted in units of 16,384 minutes, so each rate and each term of drag is
/// its value per minute times a power of 16,384. Angles are in radians, lengths in Earth radii.
#[derive(Clone, Copy)]
pub struct Consts<E> {
    /// The inclination.
    pub i: E,
    /// The cosine of the inclination.
    pub c: E,
    /// The sine of the inclination.
    pub si: E,
    /// The eccentricity.
    pub e: E,
    /// The argument of perigee at the epoch.
    pub w0: E,
    /// The node at the epoch.
    pub o0: E,
    /// The mean anomaly at the epoch.
    pub m0: E,
    /// The drag term B*, per Earth radius.
    pub bstar: E,
    /// The recovered semimajor axis, in Earth radii.
    pub a: E,
    /// The eccentricity as drag sees it.
    pub eta: E,
    /// 3 c^2 - 1.
    pub con41: E,
    /// The periodic drag term of the eccentricity.
    pub c5: E,
    /// The drag term of the mean anomaly that goes with its cosine.
    pub xmcof: E,
    /// The long-period term of the mean longitude.
    pub xlcof: E,
    /// The long-period term of the eccentricity vector.
    pub aycof: E,
    /// The cube of 1 + eta cos M at the epoch.
    pub delmo: E,
    /// The sine of the mean anomaly at the epoch.
    pub sin_m0: E,
    /// The recovered mean motion, times 16,384.
    pub n0: E,
    /// The rate of the mean anomaly, times 16,384.
    pub mdot: E,
    /// The rate of the argument of perigee, times 16,384.
    pub wdot: E,
    /// The rate of the node, times 16,384.
    pub odot: E,
    /// The drag term C1, times 16,384.
    pub c1: E,
    /// The secular drag term of the eccentricity, times 16,384.
    pub c4: E,
    /// The drag rate of the argument of perigee, times 16,384.
    pub omgcof: E,
    /// The drag term of the mean longitude with the square of the time, times 16,384.
    pub t2cof: E,
    /// The drag term D2, times 16,384^2.
    pub d2: E,
    /// The drag term of the node with the square of the time, times 16,384^2.
    pub nodecf: E,
    /// The drag term of the mean longitude with the cube of the time, times 16,384^2.
    pub t3cof: E,
    /// The drag term D3, times 16,384^3.
    pub d3: E,
    /// The drag term of the mean longitude with the fourth power of the time, times 16,384^3.
    pub t4cof: E,
    /// The drag term D4, times 16,384^4.
    pub d4: E,
    /// The drag term of the mean longitude with the fifth power of the time, times 16,384^4.
    pub t5cof: E,
}
