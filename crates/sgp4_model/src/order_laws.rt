//! Laws of the order of exact numbers.

ghost use Rattle.sgp4_model.specs.OrderLaws.{CornersBoundProductsAbove, CornersBoundProductsBelow, OrderIsAntisymmetric, OrderIsTotal, OrderIsTransitive, ProductsKeepOrder, QuotientIsUnique, SumsKeepOrder};

/// Numbers stand in a line.
pub fn numbers_are_ordered()
    ensures total { OrderIsTotal }
    ensures antisymmetric { OrderIsAntisymmetric }
    ensures transitive { OrderIsTransitive }
{}

/// Sums, and products by a number that is not negative, keep the order.
pub fn order_is_kept()
    ensures sums { SumsKeepOrder }
    ensures products { ProductsKeepOrder }
{}

/// A quotient is one number.
pub fn quotient_is_unique()
    ensures { QuotientIsUnique }
{}

/// A bound of the four products of ends bounds each product of numbers between them.
pub fn corners_bound_products()
    ensures below { CornersBoundProductsBelow }
    ensures above { CornersBoundProductsAbove }
{}
