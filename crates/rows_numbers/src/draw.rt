//! Numbers and intervals of every size, drawn alike here and by the program that made the expected values.
use crate::expected::LIMITS;
use fixed_iv::Iv;

/// Draws numbers. The state is never 0.
#[derive(Drop)]
pub struct Draw {
    state: u64,
}

impl Draw {
    pub fn new(seed: u64) -> Draw {
        Draw { state: seed }
    }

    /// The next 64 bits.
    pub fn bits(&mut self) -> u64 {
        self.state ^= self.state >> 12;
        self.state ^= self.state << 25;
        self.state ^= self.state >> 27;
        self.state.wrapping_mul(0x2545_F491_4F6C_DD1D)
    }

    /// A limit, or a number of any size.
    pub fn number(&mut self) -> i64 {
        let kind = self.bits() >> 58;
        let value = self.bits().cast_signed();
        match LIMITS.get(kind as usize) {
            Some(limit) => *limit,
            None => value >> (kind % 48),
        }
    }

    /// An interval between two numbers, or every number.
    pub fn interval(&mut self) -> Iv {
        let a = self.number();
        let b = self.number();
        interval(a.min(b), a.max(b))
    }
}

/// The interval between two ends; every number where it is none.
pub fn interval(lo: i64, hi: i64) -> Iv {
    if lo > hi || lo == i64::MAX || hi == i64::MIN {
        return Iv::WHOLE;
    }
    Iv::from_ends(lo, hi)
}

/// One number that changes with each value taken in.
pub fn mixed(digest: u64, value: u64) -> u64 {
    let product = (digest ^ value).wrapping_mul(0x9E37_79B9_7F4A_7C15);
    product ^ product >> 29
}

/// Both ends of an interval, taken in.
pub fn mixed_ends(digest: u64, v: Iv) -> u64 {
    mixed(mixed(digest, v.lo.cast_unsigned()), v.hi.cast_unsigned())
}
