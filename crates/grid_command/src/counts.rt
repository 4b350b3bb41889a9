//! The counts of a plan.
ghost use Rattle.std.specs.Prelude.{◌≡◌};
ghost use Rattle.std.specs.List.{count_by};
ghost use Rattle.grid_command.specs.Counted.{counts_of};
ghost use Rattle.plan_core.specs.State.{plan_record};
ghost use Rattle.plan_text.specs.Plan.{SatelliteRecord};
ghost use Rattle.plan_text.specs.Summary.{is_refused};

use crate::rows::tally_of_plan;
use plan_core::Plan;
use plan_text::Summary;

/// The counts of a plan: of its satellites, of its pairs and of their spans, with ticks of 100 microseconds.
pub fn summary_of(plan: &Plan) -> Summary
    ensures { result ≡ counts_of plan.now }
{
    let sats = plan.sats() as u64;
    let refused = refused_of(plan);
    let tally = tally_of_plan(plan);
    Summary {
        sats,
        refused,
        visible_spans: tally.visible_spans,
        visible_ticks: tally.visible_ticks,
        hidden_spans: tally.hidden_spans,
        hidden_ticks: tally.hidden_ticks,
        undecided_spans: tally.undecided_spans,
        undecided_ticks: tally.undecided_ticks,
        unresolved: tally.unresolved,
        full: tally.full,
        decays: tally.decays,
        cells: plan.cells(),
    }
}

/// How many satellites are refused.
fn refused_of(plan: &Plan) -> u64
    ensures { result ≡ count_by (λ (satellite : SatelliteRecord). is_refused satellite.standing) (plan_record plan.now).satellites }
{
    let mut count = 0u64;
    for sat in 0..plan.sats() {
        if plan.sat(sat).fate.is_some() {
            count += 1;
        }
    }
    count
}
