//! Intervals of what lines over a cell, and their remainders, add.
ghost use Rattle.std.specs.Prelude.{◌≡◌, IsTrue, pos};
ghost use Rattle.exact.specs.Rational.{ℚ, ◌*ℚ◌, one_ℚ, ratio, zero_ℚ, ◌<ℚ◌};
ghost use Rattle.fixed_iv.specs.Holds.{Holds};
ghost use Rattle.fixed_iv.specs.Place.{Place};
ghost use Rattle.lin_form.specs.Bend.{IsLeft, half_square};
ghost use Rattle.sgp4_model.specs.Angle.{IsNear, part};

use fixed_iv::Iv;

/// Units of 2^-48 in 1.
const ONE: i64 = 1 << 48;

/// The halves of the numbers of an interval.
pub(crate) fn halved(v: Iv) -> Iv
    ensures { (x : ℚ) → Holds v x → Holds result (ratio (pos 1) 2 *ℚ x) }
{
    Iv::from_ends(ONE / 2, ONE / 2) * v
}

/// The squares of the numbers of an interval.
pub(crate) fn square(v: Iv) -> Iv
    ensures { (x : ℚ) → Holds v x → Holds result (x *ℚ x) }
{
    (v * v).max_const(Iv::from_ends(0, 0))
}

/// What a line with one of these slopes adds to its middle somewhere in the cell.
pub(crate) fn swept(slope: Iv) -> Iv
    ensures { (h : Place) (s : ℚ) → Holds slope s → Holds result (h.at *ℚ s) }
{
    slope.hull(-slope)
}

/// What a bend adds that is one of these numbers at both ends of the cell, and 0 in the middle.
pub(crate) fn bent(bend: Iv) -> Iv
    ensures { (h : Place) (x : ℚ) → Holds bend x → Holds result (h.at *ℚ h.at *ℚ x) }
{
    bend.hull(Iv::from_ends(0, 0))
}

/// What a pair is off its lines and bends, where the angle has one of these slopes of at most 1, and `half` has half of
/// its square.
pub(crate) fn turn_spread(slope: Iv, half: Iv) -> Iv
    ensures { (s e : ℚ) → Holds slope s → Holds half (half_square s) → IsLeft s e → Holds result e }
{
    let sixth_cube = Iv::from_ends(ONE / 3, ONE / 3 + 1) * (half * slope);
    swept(sixth_cube + Iv::from_ends(-1, 1))
}

/// The numbers up to 2^-59 from 0, and some more.
pub(crate) fn tolerance() -> Iv
    ensures { (e : ℚ) → IsNear (part 59) e zero_ℚ → Holds result e }
{
    Iv::from_ends(-1, 1)
}

/// Whether 0 is left out.
pub(crate) fn is_off_zero(v: Iv) -> bool
    ensures { IsTrue result → (x : ℚ) → Holds v x → ¬ (x ≡ zero_ℚ) }
{
    v.is_bounded() && (v.lo > 0 || v.hi < 0)
}

/// Whether 0 is the only number.
pub(crate) fn is_zero(v: Iv) -> bool
    ensures { IsTrue result → (x : ℚ) → Holds v x → x ≡ zero_ℚ }
{
    v.lo == 0 && v.hi == 0
}

/// Whether all numbers are above 0.
pub(crate) fn is_positive(v: Iv) -> bool
    ensures { IsTrue result → (x : ℚ) → Holds v x → zero_ℚ <ℚ x }
{
    v.lo > 0
}

/// Whether a line with one of these slopes stays within 1 of its middle.
pub(crate) fn is_slow(slope: Iv) -> bool
    ensures { IsTrue result → (h : Place) (s : ℚ) → Holds slope s → IsNear one_ℚ (h.at *ℚ s) zero_ℚ }
{
    slope.lo >= -ONE && slope.hi <= ONE
}
