//! Laws of decimals.
ghost use Rattle.decimals.specs.Laws.{EqualValuesAreEqual, PrintedDecimalsAreReadBack, TextsOfDecimalsDiffer};
ghost use Rattle.decimals.specs.WrittenNumber.{TextsAreReadExactly};

/// Decimals that stand for one number are equal.
pub fn equal_values_are_equal()
    ensures { EqualValuesAreEqual }
{}

/// A text is read as the decimal that is the number that it writes; it is too fine exactly where no decimal is that number.
pub fn texts_are_read_exactly()
    ensures { TextsAreReadExactly }
{}

/// What is printed of a decimal is read as it, so decimals have texts of their own.
pub fn printed_decimals_are_read_back()
    ensures read_back { PrintedDecimalsAreReadBack }
    ensures differ { TextsOfDecimalsDiffer }
{}
