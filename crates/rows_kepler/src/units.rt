use enc_plain::Plain;
use fixed_iv::{Enc, Iv};
use kepler_enc::kepler;

/// Units in 1.
pub const ONE: i128 = 1 << 48;

/// The interval between two whole numbers of units. An end of 2^70 or more, or of its negative or less, is unbounded.
pub fn between(low: i128, high: i128) -> Iv {
    Iv::from_ratio(low, ONE).hull(Iv::from_ratio(high, ONE))
}

/// The bounds of the roots for these bounds.
fn bounds_of<E: Enc>(u: Iv, ax: Iv, ay: Iv) -> Option<Iv> {
    let root = kepler(E::constant(u), E::constant(ax), E::constant(ay))?;
    Some(root.bounds())
}

/// The same of the plain enclosure.
pub fn plain_roots(u: Iv, ax: Iv, ay: Iv) -> Option<Iv> {
    bounds_of::<Plain>(u, ax, ay)
}
