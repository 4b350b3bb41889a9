//! The order of decimals: that of the numbers that they stand for.
ghost use Rattle.std.specs.Prelude.{◌≡◌, ◌↔◌, ◌≤◌, ◌^◌, IsTrue};

use crate::Decimal;
use std::cmp::Ordering;

/// 10 to the power of `exponent`.
#[tactic(auto, using(crate::proofs::UnitsLemmas::ten_pow_fits))]
pub(crate) fn power_of_ten(exponent: u8) -> u64
    requires { exponent ≤ 18 }
    ensures { result ≡ 10 ^ exponent }
{
    10u64.pow(u32::from(exponent))
}

impl Decimal {
    ghost use Rattle.exact.specs.Rational.{of_int, ◌≤ℚ◌, ◌<ℚ◌};
    ghost use Rattle.decimals.specs.Decimal.{value, IsDecimal};
    ghost use Rattle.decimals.specs.Units.{units};

    /// How many times 10^-18 the number is.
    fn units(self) -> i128
        ensures value { result ≡ units self }
        ensures decimal { IsDecimal self }
    {
        i128::from(self.digits()) * i128::from(power_of_ten(18 - self.places()))
    }

    /// Whether this number is at most the other.
    #[tactic(auto, using(crate::proofs::OrderLemmas::order_le))]
    pub fn is_at_most(self, other: Decimal) -> bool
        ensures { IsTrue result ↔ value self ≤ℚ value other }
    {
        self <= other
    }

    /// Whether this number is below the other.
    #[tactic(auto, using(crate::proofs::OrderLemmas::order_lt))]
    pub fn is_below(self, other: Decimal) -> bool
        ensures { IsTrue result ↔ value self <ℚ value other }
    {
        self < other
    }

    /// Whether this number lies between the two whole numbers, both included.
    #[tactic(auto, using(crate::proofs::UnitsLemmas::value_whole))]
    pub fn is_between(self, low: i32, high: i32) -> bool
        ensures { IsTrue result ↔ (of_int low ≤ℚ value self) × (value self ≤ℚ of_int high) }
    {
        Decimal::whole(low).is_at_most(self) && self.is_at_most(Decimal::whole(high))
    }
}

impl PartialEq for Decimal {
    ghost use Rattle.std.specs.Prelude.{◌≡◌, ◌↔◌, IsTrue};
    ghost use Rattle.std.specs.Ordering.{on};
    ghost use Rattle.std.specs.Cmp.{on_per};
    ghost use Rattle.decimals.specs.Decimal.{value};
    ghost use Rattle.decimals.specs.Order.{same};
    ghost use Rattle.decimals.specs.OrderLaws.{same_per};

    ghost eq = { on value same };

    ghost laws = { on_per value same_per };

    #[tactic(auto, using(crate::proofs::UnitsLemmas::order_by_units, crate::proofs::UnitsLemmas::same_as_equal))]
    fn eq(&self, other: &Decimal) -> bool
        ensures value { result ≡ same (value self.now) (value other.now) }
        ensures equal { IsTrue result ↔ self.now ≡ other.now }
    {
        self.units().cmp(&other.units()).is_eq()
    }
}

impl Eq for Decimal {
    ghost use Rattle.std.specs.Cmp.{on_equiv};
    ghost use Rattle.decimals.specs.Decimal.{value};
    ghost use Rattle.decimals.specs.OrderLaws.{same_equiv};

    ghost laws = { on_equiv value same_equiv };
}

impl PartialOrd for Decimal {
    ghost use Rattle.std.specs.Ordering.{on, as_partial_cmp};
    ghost use Rattle.std.specs.Cmp.{on_po};
    ghost use Rattle.decimals.specs.Decimal.{value};
    ghost use Rattle.decimals.specs.Order.{order};
    ghost use Rattle.decimals.specs.OrderLaws.{order_po};

    ghost partial_cmp = { as_partial_cmp (on value order) };

    ghost laws = { on_po value order_po };

    fn partial_cmp(&self, other: &Decimal) -> Option<Ordering> {
        Some(self.cmp(other))
    }
}

impl Ord for Decimal {
    ghost use Rattle.std.specs.Prelude.{refl};
    ghost use Rattle.std.specs.Ordering.{on};
    ghost use Rattle.std.specs.Cmp.{on_total};
    ghost use Rattle.decimals.specs.Decimal.{value};
    ghost use Rattle.decimals.specs.Order.{order};
    ghost use Rattle.decimals.specs.OrderLaws.{order_total};

    ghost cmp = { on value order };

    ghost total = { on_total value order_total };

    ghost matches_partial_cmp = { λ a b. refl };

    ghost matches_eq = { λ a b. refl };

    #[tactic(auto, using(crate::proofs::UnitsLemmas::order_by_units))]
    fn cmp(&self, other: &Decimal) -> Ordering {
        self.units().cmp(&other.units())
    }
}
