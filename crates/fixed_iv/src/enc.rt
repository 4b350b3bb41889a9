//! The interface that all enclosures meet.
ghost use Rattle.std.specs.Prelude.{◌≡◌, Bool, T};
ghost use Rattle.exact.specs.Rational.{ℚ, ◌+ℚ◌, ◌-ℚ◌, ◌*ℚ◌, ◌/ℚ◌, neg_ℚ, zero_ℚ};
ghost use Rattle.sgp4_model.specs.Angle.{IsPi, IsSinCos};
ghost use Rattle.sgp4_model.specs.Root.{IsCbrt2, IsSqrt};
ghost use Rattle.fixed_iv.specs.Common.{IsGreater};
ghost use Rattle.fixed_iv.specs.Extent.{Extent, IsMeasured};
ghost use Rattle.fixed_iv.specs.Holds.{Holds, IsBounded};
ghost use Rattle.fixed_iv.specs.Narrow.{IsNarrowCbrt2, IsNarrowConstant, IsNarrowDifference, IsNarrowGreater, IsNarrowLine, IsNarrowNegative, IsNarrowPi, IsNarrowProduct, IsNarrowQuotient, IsNarrowRoot, IsNarrowSum, IsNarrowTurn};
ghost use Rattle.fixed_iv.specs.Place.{Place, on_line};

use crate::Iv;

/// An enclosure of a quantity over a cell: at each place of the cell it covers the numbers that the quantity may be
/// there. Each operation covers the exact results of covered numbers (`covers`), and is narrow where its arguments are
/// (`narrow`), if the implementation tells its spread.
pub trait Enc: Copy {
    /// At the place `h` of the cell, from -1 to 1, the quantity may be `x`.
    ghost covers: { Self → Place → ℚ → Type 0 };

    /// Whether the implementation tells its spread.
    ghost tells: { Bool };

    /// Its bounds, and its spread where that is told.
    ghost extent: { Self → Extent };

    /// A number that the interval holds, the same over the whole cell.
    fn constant(value: Iv) -> Self
        ensures covers { (h : Place) (x : ℚ) → Holds value x → covers result h x }
        ensures narrow { T tells → IsNarrowConstant value (extent result) };

    /// A number of the bracket of pi.
    fn pi() -> Self
        ensures covers { (h : Place) (p : ℚ) → IsPi p → covers result h p }
        ensures narrow { T tells → IsNarrowPi (extent result) };

    /// A quantity that goes along a line, from a number of `from` at the start of the cell to one of `to` at its end.
    fn line(from: Iv, to: Iv) -> Self
        ensures covers { (h : Place) (x y : ℚ) → Holds from x → Holds to y → covers result h (on_line h x y) }
        ensures narrow { T tells → IsNarrowLine from to (extent result) };

    /// The sum.
    fn plus(self, other: Self) -> Self
        ensures covers { (h : Place) (x y : ℚ) → covers self h x → covers other h y → covers result h (x +ℚ y) }
        ensures narrow { T tells → IsNarrowSum (extent self) (extent other) (extent result) };

    /// The difference.
    fn minus(self, other: Self) -> Self
        ensures covers { (h : Place) (x y : ℚ) → covers self h x → covers other h y → covers result h (x -ℚ y) }
        ensures narrow { T tells → IsNarrowDifference (extent self) (extent other) (extent result) };

    /// The product.
    fn times(self, other: Self) -> Self
        ensures covers { (h : Place) (x y : ℚ) → covers self h x → covers other h y → covers result h (x *ℚ y) }
        ensures narrow { T tells → IsNarrowProduct (extent self) (extent other) (extent result) };

    /// The quotient, where the divisor is not 0.
    fn divided(self, other: Self) -> Self
        ensures covers { (h : Place) (x y : ℚ) → covers self h x → covers other h y → ¬ (y ≡ zero_ℚ) → covers result h (x /ℚ y) }
        ensures narrow { T tells → IsNarrowQuotient (extent self) (extent other) (extent result) };

    /// The negative.
    fn negate(self) -> Self
        ensures covers { (h : Place) (x : ℚ) → covers self h x → covers result h (neg_ℚ x) }
        ensures narrow { T tells → IsNarrowNegative (extent self) (extent result) };

    /// The greater of the quantity and a number of `floor`.
    fn max_const(self, floor: Iv) -> Self
        ensures covers { (h : Place) (x m z : ℚ) → covers self h x → Holds floor m → IsGreater x m z → covers result h z }
        ensures narrow { T tells → IsNarrowGreater (extent self) floor (extent result) };

    /// The sine and the cosine.
    fn sincos(self) -> (Self, Self)
        ensures covers { (h : Place) (p x s c : ℚ) → IsPi p → IsSinCos p x s c → covers self h x → covers result.0 h s × covers result.1 h c }
        ensures narrow { T tells → IsNarrowTurn (extent self) (extent result.0) × IsNarrowTurn (extent self) (extent result.1) };

    /// The square root. A negative number has none.
    fn sqrt(self) -> Self
        ensures covers { (h : Place) (x r : ℚ) → IsSqrt x r → covers self h x → covers result h r }
        ensures narrow { T tells → IsNarrowRoot (extent self) (extent result) };

    /// The cube root of the square. A number that is 0 or less has none.
    fn cbrt2(self) -> Self
        ensures covers { (h : Place) (x r : ℚ) → IsCbrt2 x r → covers self h x → covers result h r }
        ensures narrow { T tells → IsNarrowCbrt2 (extent self) (extent result) };

    /// An interval that holds each covered number, at every place.
    fn bounds(self) -> Iv
        ensures { result ≡ (extent self).ends };

    /// Bounds that are bounded are no wider than the spread.
    ghost measured: { (a : Self) → T tells → IsBounded (extent a).ends → IsMeasured (extent a) };

    /// The bounds hold each covered number.
    ghost contained: { (a : Self) (h : Place) (x : ℚ) → covers a h x → Holds (extent a).ends x };
}
