//! Element sets for the tests.
use crate::expected::Given;
use elements::{
    Decimal, Elements, Instant, is_angle, is_eccentricity, is_inclination, is_motion, read_decimal,
};

/// The element set of these texts, at an epoch of its own and with other angles of 0.
pub fn set_of(given: &Given) -> Option<Elements> {
    let motion = read_decimal(given.0).ok()?;
    let ecc = read_decimal(given.1).ok()?;
    let incl = read_decimal(given.2).ok()?;
    let bstar = read_decimal(given.3).ok()?;
    let zero = Decimal::whole(0);
    if is_motion(motion) && is_eccentricity(ecc) && is_inclination(incl) && is_angle(zero) {
        Some(Elements::make(
            5,
            Instant::from_nanos(0),
            motion,
            ecc,
            incl,
            zero,
            zero,
            zero,
            bstar,
        ))
    } else {
        None
    }
}
