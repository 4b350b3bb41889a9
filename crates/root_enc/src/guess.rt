//! First guesses of whole roots. Nothing is promised of them: who calls verifies. So a sum may wrap here.
ghost use Rattle.std.specs.Prelude.{◌<◌};

/// What the upper of two limbs counts.
const LIMB: u128 = 1 << 64;

/// The place of the highest bit of what the first root is taken of.
const TOP: u32 = 63;

/// What the square root of a number of 63 or 64 bits is above 2^-33 of it, in the middle.
const SQUARE_MIDDLE: u64 = 7 << 28;

/// What the cube root of a number of 62 to 64 bits is above 2^-44 of it, in the middle.
const CUBE_MIDDLE: u64 = 11 << 17;

/// A number near the square root of `n`: Heron's rule three times on the upper bits, and once on all.
pub fn square_root_guess(n: u128) -> u64
    requires { 0 < n }
{
    let shift = n.ilog2().saturating_sub(TOP) + 1 & !1;
    let top = ((n >> shift) % LIMB) as u64;
    let root = heron(top, heron(top, heron(top, top / (1 << 33) + SQUARE_MIDDLE)));
    let root = u128::from(root) << (shift / 2);
    (root.wrapping_add(n / root.max(1)) / 2 % LIMB) as u64
}

/// A number near the cube root of a number of two limbs: Newton's rule three times on the upper bits, and twice on all.
pub fn cube_root_guess(high: u128, low: u64) -> u64 {
    let thirds = high.max(1).ilog2().saturating_sub(TOP) / 3;
    let top = ((high >> (3 * thirds + 2)) % LIMB) as u64;
    let root = newton(top, newton(top, newton(top, top / (1 << 44) + CUBE_MIDDLE)));
    let root = ((u128::from(root) << (thirds + 22)) % LIMB) as u64;
    newton_of_limbs(high, low, newton_of_limbs(high, low, root))
}

/// The mean of a guess at the square root and what it leaves of `n`.
fn heron(n: u64, root: u64) -> u64 {
    root.wrapping_add(n / root.max(1)) / 2
}

/// The mean of a guess at the cube root, taken twice, and what it leaves of `n`.
fn newton(n: u64, root: u64) -> u64 {
    let root = root.max(1);
    root.wrapping_mul(2).wrapping_add(n / root / root) / 3
}

/// The same of a number of two limbs.
fn newton_of_limbs(high: u128, low: u64, root: u64) -> u64 {
    let root = u128::from(root.max(1));
    let lower = (high % root * LIMB + u128::from(low)) / root;
    let quotient = (high / root).wrapping_mul(LIMB).wrapping_add(lower);
    (root.wrapping_mul(2).wrapping_add(quotient / root) / 3 % LIMB) as u64
}
