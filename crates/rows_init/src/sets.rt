//! Element sets for the tests.
use crate::expected::{GIVEN, Given};
use elements::{
    Elements, Instant, is_angle, is_eccentricity, is_inclination, is_motion, read_decimal,
};

/// The element set at a place of the table.
pub fn set_at(place: usize) -> Option<Elements> {
    set_of(GIVEN.get(place)?)
}

/// The element set of these texts, at an epoch of its own.
fn set_of(given: &Given) -> Option<Elements> {
    let motion = read_decimal(given[0]).ok()?;
    let ecc = read_decimal(given[1]).ok()?;
    let incl = read_decimal(given[2]).ok()?;
    let node = read_decimal(given[3]).ok()?;
    let argp = read_decimal(given[4]).ok()?;
    let anomaly = read_decimal(given[5]).ok()?;
    let bstar = read_decimal(given[6]).ok()?;
    let are_angles = is_angle(node) && is_angle(argp) && is_angle(anomaly);
    if is_motion(motion) && is_eccentricity(ecc) && is_inclination(incl) && are_angles {
        Some(Elements::make(
            5,
            Instant::from_nanos(0),
            motion,
            ecc,
            incl,
            node,
            argp,
            anomaly,
            bstar,
        ))
    } else {
        None
    }
}
