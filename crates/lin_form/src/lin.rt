//! The slope enclosure.
ghost use Rattle.std.specs.Prelude.{◌≡◌, false};

use crate::bands::{
    bent, halved, is_off_zero, is_positive, is_slow, is_zero, square, swept, tolerance, turn_spread,
};
use crate::products::product_range;
use fixed_iv::{Enc, Iv};

/// A band about lines over the cell, within one interval: at the place `h` of the cell, from -1 to 1, the quantity is a
/// number of `centre` and `h` times one of `slope`, and a number of `range`. It tells no spread.
#[derive(Clone, Copy)]
pub struct Lin {
    pub centre: Iv,
    pub slope: Iv,
    pub range: Iv,
}

impl Lin {
    ghost use Rattle.std.specs.Prelude.{◌≡◌};
    ghost use Rattle.exact.specs.Rational.{ℚ, ◌+ℚ◌, ◌*ℚ◌};
    ghost use Rattle.fixed_iv.specs.Holds.{Holds};
    ghost use Rattle.fixed_iv.specs.Place.{Place};
    ghost use Rattle.lin_form.specs.Covered.{IsCovered, on_slope};

    /// The quantity with no slope.
    fn level(range: Iv) -> Lin
        ensures { (h : Place) (x : ℚ) → Holds range x → IsCovered result h x }
    {
        Lin {
            centre: range,
            slope: Iv::from_ends(0, 0),
            range,
        }
    }

    /// The quantity that lies on lines with these middles and slopes, and within the range. Where a middle or a slope has
    /// no bound, the range alone.
    fn along(centre: Iv, slope: Iv, range: Iv) -> Lin
        ensures { (h : Place) (x m s : ℚ) → Holds range x → Holds centre m → Holds slope s → x ≡ on_slope h m s → IsCovered result h x }
    {
        if !(centre.is_bounded() && slope.is_bounded()) {
            return Lin::level(range);
        }
        Lin {
            centre,
            slope,
            range: range.meet(centre + swept(slope)),
        }
    }

    /// The product with a number of `factor`, where it lies in `range`.
    fn scaled(self, factor: Iv, range: Iv) -> Lin
        ensures { (h : Place) (x f : ℚ) → IsCovered self h x → Holds factor f → Holds range (f *ℚ x) → IsCovered result h (f *ℚ x) }
    {
        if is_zero(self.slope) {
            return Lin::level(range);
        }
        Lin::along(self.centre * factor, self.slope * factor, range)
    }
}

impl Enc for Lin {
    ghost use Rattle.fixed_iv.specs.Extent.{extent_of};
    ghost use Rattle.lin_form.specs.Covered.{IsCovered};

    ghost covers = { IsCovered };

    ghost tells = { false };

    ghost extent = { λ a. extent_of a.range };

    ghost measured = { λ a t b. absurd t };

    ghost contained = { λ a h x k. k.ranged };

    fn constant(value: Iv) -> Lin {
        Lin::level(value)
    }

    fn pi() -> Lin {
        Lin::level(trig_enc::pi())
    }

    fn line(from: Iv, to: Iv) -> Lin {
        Lin::along(halved(from + to), halved(to - from), from.hull(to))
    }

    fn plus(self, other: Lin) -> Lin {
        Lin::along(
            self.centre + other.centre,
            self.slope + other.slope,
            self.range + other.range,
        )
    }

    fn minus(self, other: Lin) -> Lin {
        Lin::along(
            self.centre - other.centre,
            self.slope - other.slope,
            self.range - other.range,
        )
    }

    fn times(self, other: Lin) -> Lin {
        let range = product_range(self, other);
        if is_zero(self.slope) {
            return other.scaled(self.centre, range);
        }
        if is_zero(other.slope) {
            return self.scaled(other.centre, range);
        }
        let bend = self.slope * other.slope;
        let slope = self.centre * other.slope + self.slope * other.centre;
        let centre = self.centre * other.centre + bent(bend);
        Lin::along(centre, slope, range)
    }

    fn divided(self, other: Lin) -> Lin {
        let range = self.range / other.range;
        if !is_off_zero(other.centre) {
            return Lin::level(range);
        }
        let quotient = self.centre / other.centre;
        let slope = (self.slope - quotient * other.slope) / other.centre;
        let bend = slope * other.slope / other.range;
        Lin::along(quotient - bent(bend), slope, range)
    }

    fn negate(self) -> Lin {
        Lin::along(-self.centre, -self.slope, -self.range)
    }

    fn max_const(self, floor: Iv) -> Lin {
        if self.range.lo >= floor.hi {
            return self;
        }
        Lin::level(self.range.max_const(floor))
    }

    fn sincos(self) -> (Lin, Lin) {
        if is_zero(self.slope) || !is_slow(self.slope) {
            let (sines, cosines) = trig_enc::sincos(self.range);
            return (Lin::level(sines), Lin::level(cosines));
        }
        let (sines, cosines) = trig_enc::sincos(Iv::WHOLE);
        let (sine, cosine) = trig_enc::sincos(self.centre);
        let half = halved(square(self.slope));
        let spread = turn_spread(self.slope, half);
        (
            Lin::along(
                sine - bent(half * sine) + spread,
                self.slope * cosine,
                sines,
            ),
            Lin::along(
                cosine - bent(half * cosine) + spread,
                -(self.slope * sine),
                cosines,
            ),
        )
    }

    fn sqrt(self) -> Lin {
        let range = root_enc::sqrt(self.range);
        let root = root_enc::sqrt(self.centre);
        if !is_positive(self.centre) || !is_positive(root) {
            return Lin::level(range);
        }
        let twice = root + root;
        let rest = tolerance() - square(range - root);
        Lin::along(root + rest / twice, self.slope / twice, range)
    }

    fn cbrt2(self) -> Lin {
        let range = root_enc::cbrt2(self.range);
        let root = root_enc::cbrt2(self.centre);
        if !is_positive(self.centre) || !is_positive(root) {
            return Lin::level(range);
        }
        let twice = root + root;
        let steep = (twice + root) * root;
        let rise = self.centre * self.slope;
        let rest = bent(square(self.slope)) + tolerance() - square(range - root) * (twice + range);
        Lin::along(root + rest / steep, (rise + rise) / steep, range)
    }

    fn bounds(self) -> Iv {
        self.range
    }
}
