//! Equal texts are those of equal results.
ghost use Rattle.layout_laws.specs.DayLaw.{LayoutsTellDays};
ghost use Rattle.layout_laws.specs.LocateLaw.{LayoutsTellPlaces};
ghost use Rattle.layout_laws.specs.PlanLaw.{LayoutsTellPlans};
ghost use Rattle.layout_laws.specs.ShowLaw.{LayoutsTellCatalogues};

/// Two plans of which the same is printed have equal windows, offsets and satellites, each with an equal fate or equal
/// answers and spans, and equal names of the stations as they are printed.
pub fn layout_is_injective_on_plans()
    ensures { LayoutsTellPlans }
{}

/// Daylight of which the same is printed has equal windows, answers and spans.
pub fn layout_is_injective_on_days()
    ensures { LayoutsTellDays }
{}

/// Two catalogues of which the same is printed are equal.
pub fn layout_is_injective_on_catalogues()
    ensures { LayoutsTellCatalogues }
{}

/// Two places of which the same is printed are equal: instants, numbers, and what was found.
pub fn layout_is_injective_on_places()
    ensures { LayoutsTellPlaces }
{}
