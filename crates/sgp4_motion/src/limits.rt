//! The limits of a period and of a perigee.
ghost use Rattle.std.specs.Prelude.{◌≡◌, ◌↔◌, ◌*◌, ◌^◌, ◌<ℤ◌, ◌≤ℤ◌, false, pos, true, IsTrue};

use fixed_iv::Iv;

/// The least perigee that is accepted, in kilometres over the equatorial radius.
pub const LEAST_PERIGEE_KM: u32 = 300;

/// 225 minutes, in units of 2^-48 of 16,384 minutes.
const LONGEST: i64 = 225 << 34;

/// The least perigee that is accepted, in units of 2^-48 km.
const LOWEST: i64 = (LEAST_PERIGEE_KM as i64) << 48;

/// 220 km, below which the equations take their simple form, in units of 2^-48 km.
const CHANGE: i64 = 220 << 48;

/// Whether the bounds of a period over 16,384 minutes are below 225 minutes.
pub(crate) fn is_short(period: Iv) -> bool
    ensures { IsTrue result ↔ (period.hi <ℤ pos (225 * 2 ^ 34)) }
{
    period.hi < LONGEST
}

/// Whether the bounds of a perigee in kilometres are at least the least one that is accepted.
pub(crate) fn is_high(perigee: Iv) -> bool
    ensures { IsTrue result ↔ (pos (LEAST_PERIGEE_KM * 2 ^ 48) ≤ℤ perigee.lo) }
{
    perigee.lo >= LOWEST
}

/// Whether the bounds of a perigee in kilometres are below 220 km, not whether at least that; nothing where they hold it.
pub(crate) fn is_simple(perigee: Iv) -> Option<bool>
    ensures simple { result ≡ Some true → perigee.hi <ℤ pos (220 * 2 ^ 48) }
    ensures full { result ≡ Some false → pos (220 * 2 ^ 48) ≤ℤ perigee.lo }
    ensures edge { result ≡ None → (perigee.lo <ℤ pos (220 * 2 ^ 48)) × (pos (220 * 2 ^ 48) ≤ℤ perigee.hi) }
{
    if perigee.hi < CHANGE {
        Some(true)
    } else if perigee.lo >= CHANGE {
        Some(false)
    } else {
        None
    }
}
