use fixed_iv::Iv;

/// Units in 1.
const ONE: i128 = 1 << 48;

/// The interval between two whole numbers of units. An end of 2^70 or more, or of its negative or less, is unbounded.
pub fn between(low: i128, high: i128) -> Iv {
    Iv::from_ratio(low, ONE).hull(Iv::from_ratio(high, ONE))
}
