//! The plain enclosure.
ghost use Rattle.std.specs.Prelude.{true};

use fixed_iv::{Enc, Iv};

/// One interval that holds the quantity at each place of the cell. It tells its width as its spread.
#[derive(Clone, Copy)]
pub struct Plain {
    pub iv: Iv,
}

impl Enc for Plain {
    ghost use Rattle.fixed_iv.specs.Extent.{extent_of};
    ghost use Rattle.fixed_iv.specs.Holds.{Holds};
    ghost use Rattle.fixed_iv.proofs.NarrowLemmas.{measured_of};

    ghost covers = { λ a h x. Holds a.iv x };

    ghost tells = { true };

    ghost extent = { λ a. extent_of a.iv };

    ghost measured = { λ a _ b. measured_of a.iv b };

    ghost contained = { λ a h x k. k };

    fn constant(value: Iv) -> Plain {
        Plain { iv: value }
    }

    fn pi() -> Plain {
        Plain { iv: trig_enc::pi() }
    }

    fn line(from: Iv, to: Iv) -> Plain {
        Plain { iv: from.hull(to) }
    }

    fn plus(self, other: Plain) -> Plain {
        Plain {
            iv: self.iv + other.iv,
        }
    }

    fn minus(self, other: Plain) -> Plain {
        Plain {
            iv: self.iv - other.iv,
        }
    }

    fn times(self, other: Plain) -> Plain {
        Plain {
            iv: self.iv * other.iv,
        }
    }

    fn divided(self, other: Plain) -> Plain {
        Plain {
            iv: self.iv / other.iv,
        }
    }

    fn negate(self) -> Plain {
        Plain { iv: -self.iv }
    }

    fn max_const(self, floor: Iv) -> Plain {
        Plain {
            iv: self.iv.max_const(floor),
        }
    }

    fn sincos(self) -> (Plain, Plain) {
        let (sines, cosines) = trig_enc::sincos(self.iv);
        (Plain { iv: sines }, Plain { iv: cosines })
    }

    fn sqrt(self) -> Plain {
        Plain {
            iv: root_enc::sqrt(self.iv),
        }
    }

    fn cbrt2(self) -> Plain {
        Plain {
            iv: root_enc::cbrt2(self.iv),
        }
    }

    fn bounds(self) -> Iv {
        self.iv
    }
}
