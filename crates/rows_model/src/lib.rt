//! The definitions of certified tracks, of solutions and of tolerances, on small cases and down to the numbers.
#![tactic(auto)]

ghost use Rattle.rows_model.specs.Contacts.{CertifiedContactsAreTrue};
ghost use Rattle.rows_model.specs.Headline.{CertifiedSpansAreTrue};
ghost use Rattle.rows_model.specs.Horizon.{HorizonRows};
ghost use Rattle.rows_model.specs.Orbit.{PartsMakeMeanElements, PartsMakePositions, PartsMakeRoots};
ghost use Rattle.rows_model.specs.Parts.{ContactsMakeSolutions, PairsMakeADay, PairsMakeASun, PositionsMakeLight, ThreeSectorsGoRound};
ghost use Rattle.rows_model.specs.Rows.{DecayRows, FullRows, SpanRows, UnresolvedRows};
ghost use Rattle.rows_model.specs.Shadow.{ShadowRows};
ghost use Rattle.rows_model.specs.Sunlight.{CertifiedSunlightIsTrue};
ghost use Rattle.rows_model.specs.Tilings.{SmallNeighbours, SmallTilings, SmallTruths};
ghost use Rattle.rows_model.specs.Tolerances.{CubeRootRows, ModestRows, PairRows, PiRows, SquareRootRows};

/// Lists that tile and lists that do not.
pub fn small_tilings()
    ensures { SmallTilings }
{}

/// Lists whose neighbours differ in mark and lists whose neighbours do not.
pub fn small_neighbours()
    ensures { SmallNeighbours }
{}

/// Spans that are true of a track and spans that are not.
pub fn small_truths()
    ensures { SmallTruths }
{}

/// A row of spans, and rows that differ from it in one place.
pub fn rows_of_spans()
    ensures { SpanRows }
{}

/// An unresolved row, and rows that differ from it in one place.
pub fn unresolved_rows()
    ensures { UnresolvedRows }
{}

/// A row that found no room, and rows that differ from it in one place.
pub fn full_rows()
    ensures { FullRows }
{}

/// A row that sinks, and rows that differ from it in one place.
pub fn decaying_rows()
    ensures { DecayRows }
{}

/// Numbers that are light, are night or graze, and numbers just past them.
pub fn sides_of_the_horizon()
    ensures { HorizonRows }
{}

/// Numbers that are sunlit, are dark or graze the shadow, and numbers just past them.
pub fn sides_of_the_shadow()
    ensures { ShadowRows }
{}

/// The ends of the bracket of pi, and numbers just past them.
pub fn ends_of_the_bracket()
    ensures { PiRows }
{}

/// Square roots and cube roots of squares, also at the tolerance, and numbers that are none.
pub fn known_roots()
    ensures squares { SquareRootRows }
    ensures cubes { CubeRootRows }
{}

/// Pairs at whole quarter turns, and one at the tolerance; angles of which sines are Lipschitz.
pub fn known_pairs()
    ensures pairs { PairRows }
    ensures angles { ModestRows }
{}

/// In a certified row of daylight each span says of every instant, every pi, all pairs and every Sun what it seems to.
pub fn certified_spans_are_true()
    ensures { CertifiedSpansAreTrue }
{}

/// In a certified row of sunlight each span says of every instant, every pi, all constants, positions and Suns what it
/// seems to.
pub fn certified_sunlight_is_true()
    ensures { CertifiedSunlightIsTrue }
{}

/// In a certified row of a pair each span says of every instant, every pi, all constants, positions, pairs, places and
/// ranges what it seems to.
pub fn certified_contacts_are_true()
    ensures { CertifiedContactsAreTrue }
{}

/// Numbers that meet the equations one by one are a direction of the Sun, and solutions.
pub fn parts_make_solutions()
    ensures sun { PairsMakeASun }
    ensures day { PairsMakeADay }
    ensures light { PositionsMakeLight }
    ensures contact { ContactsMakeSolutions }
    ensures root { PartsMakeRoots }
    ensures mean { PartsMakeMeanElements }
    ensures position { PartsMakePositions }
{}

/// Three sectors of a mask go round the horizon.
pub fn three_sectors_go_round()
    ensures { ThreeSectorsGoRound }
{}
