//! Tests of what is printed of plans.
#![tactic(auto)]

ghost use Rattle.rows_plan_text.specs.SmallPlans.{SmallPlans};

#[cfg(test)]
mod grids;
#[cfg(test)]
mod plans;

/// Two small plans, what is printed of them and what is counted, by hand.
#[tactic(auto, using(crate::proofs::PlanCases::small_plans))]
pub fn small_plans()
    ensures { SmallPlans }
{}
