//! Laws of the operators.
ghost use Rattle.fixed_iv.specs.Laws.{DifferencesAreHeld, DifferencesAreNarrow, NegativesAreHeld, ProductsAreHeld, ProductsAreNarrow, QuotientsAreHeld, QuotientsAreNarrow, SumsAreHeld, SumsAreNarrow};

/// The interval of a result holds the result of held numbers, whatever the operands.
pub fn results_are_held()
    ensures sums { SumsAreHeld }
    ensures differences { DifferencesAreHeld }
    ensures negatives { NegativesAreHeld }
    ensures products { ProductsAreHeld }
    ensures quotients { QuotientsAreHeld }
{}

/// How wide a bounded result of bounded operands is at most.
pub fn results_are_narrow()
    ensures sums { SumsAreNarrow }
    ensures differences { DifferencesAreNarrow }
    ensures products { ProductsAreNarrow }
    ensures quotients { QuotientsAreNarrow }
{}
