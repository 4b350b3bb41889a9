//! Laws of certified plans.
ghost use Rattle.plan_command.specs.NoneLost.{PlansLoseNoContact};
ghost use Rattle.plan_command.specs.PlanLaws.{ClearRowsAreResolved, LightSpansAreTrue, PairSpansAreTrue, PlansListEachSatellite, RowsAreCertified};

/// A certified plan lists each satellite of its catalogue, in order, as one that may be refused for its fault, or as one that
/// may be accepted and has a row for each station.
pub fn plans_list_each_satellite()
    ensures { PlansListEachSatellite }
{}

/// Each row of a certified plan is certified.
pub fn rows_are_certified()
    ensures { RowsAreCertified }
{}

/// Each row of a certified plan whose track grazes throughout no stretch of one tick more than the resolution, and sinks
/// nowhere, is spans or full; it is spans where no row is full.
pub fn clear_rows_are_resolved()
    ensures { ClearRowsAreResolved }
{}

/// At every instant of a visible (hidden) span of a certified plan a solution exists, and every one is above (below) the mask;
/// an undecided span is no longer than the resolution and only grazes.
pub fn pair_spans_are_true()
    ensures { PairSpansAreTrue }
{}

/// At every instant of a sunlit (dark) span of a certified plan a lit solution exists, and every one is sunlit (dark); an
/// undecided span is no longer than the resolution and only grazes.
pub fn light_spans_are_true()
    ensures { LightSpansAreTrue }
{}

/// No contact is lost: where some solution is above the mask at each instant of a stretch that is longer than the resolution,
/// this stretch has an instant in common with a visible span, in each row of a certified plan that is spans.
pub fn plans_lose_no_contact()
    ensures { PlansLoseNoContact }
{}
