//! Tests of what all commands of the program share, and its definitions on small cases.
#![tactic(auto)]

ghost use Rattle.rows_runs.specs.EndLaws.{StatusesTell};
ghost use Rattle.rows_runs.specs.ProductLaws.{BookingsAreCertified, DaylightIsCertified, GridsAreCounted, LocatedSatellitesAreAnswers};
ghost use Rattle.rows_runs.specs.ProductLaws.{PlansAreCertified, ProductsAreOfTheirCommand, ShownSatellitesAreChosen};
ghost use Rattle.rows_runs.specs.SmallCauses.{EmptyFiles, SmallCauses};
ghost use Rattle.rows_runs.specs.SmallCounted.{SmallCounted};
ghost use Rattle.rows_runs.specs.SmallOutputs.{SmallProducts, SmallRefusals};
ghost use Rattle.rows_runs.specs.SmallResolved.{SmallResolved};
ghost use Rattle.rows_runs.specs.SmallStatuses.{SmallStatuses};

#[cfg(test)]
mod calls;
#[cfg(test)]
mod given;
#[cfg(test)]
mod lines;

/// The exit status of each kind of outcome.
pub fn small_statuses()
    ensures { SmallStatuses }
{}

/// Counts of a shelf that an outcome allows, and counts that it does not.
pub fn small_counted()
    ensures { SmallCounted }
{}

/// What may be written of a refusal, and what may not.
pub fn small_refusals()
    ensures { SmallRefusals }
{}

/// What may be written of a product, and what may not.
pub fn small_products()
    ensures { SmallProducts }
{}

/// Answers that are resolved, tracks that graze throughout no long stretch, and others.
pub fn small_resolved()
    ensures { SmallResolved }
{}

/// Words that name no file, and what outcomes say of them.
pub fn small_causes()
    ensures { SmallCauses }
{}

/// Empty files, and what outcomes say of them.
pub fn empty_files()
    ensures { EmptyFiles }
{}

/// A product is of the command that the words give.
pub fn products_are_of_their_command()
    ensures { ProductsAreOfTheirCommand }
{}

/// A plan has the window of the words, and is certified for the satellites and the stations of their files.
pub fn plans_are_certified()
    ensures { PlansAreCertified }
{}

/// Daylight has the window of the words, and is certified for their place.
pub fn daylight_is_certified()
    ensures { DaylightIsCertified }
{}

/// Shown satellites are the chosen ones of the file's bytes.
pub fn shown_satellites_are_chosen()
    ensures { ShownSatellitesAreChosen }
{}

/// What is located is the answer of the chosen satellites of the file's bytes.
pub fn located_satellites_are_answers()
    ensures { LocatedSatellitesAreAnswers }
{}

/// Counts are those of a certified plan of as many generated satellites as the words say.
pub fn grids_are_counted()
    ensures { GridsAreCounted }
{}

/// Bookings are of a certified plan of the words' files and window, with as many antennas as the words say.
pub fn bookings_are_certified()
    ensures { BookingsAreCertified }
{}

/// What the exit status of the program says.
pub fn statuses_tell()
    ensures { StatusesTell }
{}
