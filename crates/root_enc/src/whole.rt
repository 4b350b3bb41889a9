//! Whole roots of whole numbers.
ghost use Rattle.std.specs.Prelude.{◌≡◌, ◌+◌, ◌*◌, ◌<◌, ◌≤◌, ◌↔◌, IsTrue};
ghost use Rattle.root_enc.specs.Ends.{IsWholeCubeRoot, IsWholeRoot};

use crate::guess::{cube_root_guess, square_root_guess};

/// What the upper of two limbs counts.
const LIMB: u128 = 1 << 64;

/// All cube roots of squares are below this.
const CUBE_ROOTS: u64 = 1 << 59;

/// The square root of `n`, rounded down.
pub fn whole_root(n: u128) -> u64
    requires sign { 0 < n }
    requires size { n < 5192296858534827628530496329220096 }
    ensures size { result < 72057594037927936 }
    ensures root { IsWholeRoot n result }
{
    let guess = square_root_guess(n);
    if is_whole_root(n, guess) {
        guess
    } else {
        n.isqrt() as u64
    }
}

/// Whether the number is the square root of `n`, rounded down.
fn is_whole_root(n: u128, root: u64) -> bool
    ensures { IsTrue result ↔ IsWholeRoot n root }
{
    let square = u128::from(root) * u128::from(root);
    square <= n && n - square <= 2 * u128::from(root)
}

/// The cube root of a number of two limbs, rounded down.
pub fn whole_cube_root(high: u128, low: u64) -> u64
    requires { high < 2596148429267413814265248164610048 }
    ensures size { result < 576460752303423488 }
    ensures root { IsWholeCubeRoot (high * 18446744073709551616 + low) result }
{
    let guess = cube_root_guess(high, low);
    if guess < CUBE_ROOTS
        && is_cube_at_most(guess, high, low)
        && !is_cube_at_most(guess + 1, high, low)
    {
        guess
    } else {
        bisected_cube_root(high, low)
    }
}

/// The same, by halving.
fn bisected_cube_root(high: u128, low: u64) -> u64
    requires { high < 2596148429267413814265248164610048 }
    ensures size { result < 576460752303423488 }
    ensures root { IsWholeCubeRoot (high * 18446744073709551616 + low) result }
{
    let mut under = 0;
    let mut over = CUBE_ROOTS;
    while under + 1 < over {
        let middle = (under + over) / 2;
        if is_cube_at_most(middle, high, low) {
            under = middle;
        } else {
            over = middle;
        }
    }
    under
}

/// Whether the cube is at most a number of two limbs.
fn is_cube_at_most(root: u64, high: u128, low: u64) -> bool
    requires { root ≤ 576460752303423488 }
    ensures { IsTrue result ↔ root * root * root ≤ high * 18446744073709551616 + low }
{
    let (upper, lower) = cube_of(root);
    upper < high || upper == high && lower <= low
}

/// The cube, as two limbs.
fn cube_of(root: u64) -> (u128, u64)
    requires { root ≤ 576460752303423488 }
    ensures { result.0 * 18446744073709551616 + result.1 ≡ root * root * root }
{
    let square = u128::from(root) * u128::from(root);
    let lower = square % LIMB * u128::from(root);
    let upper = square / LIMB * u128::from(root) + lower / LIMB;
    (upper, (lower % LIMB) as u64)
}
