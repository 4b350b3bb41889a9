//! Laws of the years, of dates, and of the texts of instants.
ghost use Rattle.civil_time.specs.CivilDate.{DatesAreFoundAgain, DatesAreOfTheCalendar};
ghost use Rattle.civil_time.specs.InstantText.{TextsOfInstantsDiffer};
ghost use Rattle.civil_time.specs.ReadBack.{TextsAreReadBack};
ghost use Rattle.civil_time.specs.YearSpan.{InstantsAreOfTheYears};

/// The first instant begins the year 1957, and the last is followed by the beginning of the year 2057.
#[tactic(auto, using(crate::proofs::YearLemmas::instants_are_of_the_years))]
pub fn instants_are_of_the_years()
    ensures { InstantsAreOfTheYears }
{}

/// Each day of the years 1957 to 2056 has its date in the Gregorian calendar.
pub fn dates_are_of_the_calendar()
    ensures { DatesAreOfTheCalendar }
{}

/// The date of a date's day is the date.
#[tactic(auto, using(crate::proofs::DateLemmas::dates_are_found_again))]
pub fn dates_are_found_again()
    ensures { DatesAreFoundAgain }
{}

/// Two instants that so many decimals write in full have two texts.
#[tactic(auto, using(crate::proofs::DifferLemmas::texts_differ))]
pub fn texts_of_instants_differ()
    ensures { TextsOfInstantsDiffer }
{}

/// The text of an instant that its decimals write in full is read as the instant.
#[tactic(auto, using(crate::proofs::ReadBackLemmas::texts_are_read_back))]
pub fn texts_are_read_back()
    ensures { TextsAreReadBack }
{}
