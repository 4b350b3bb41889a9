//! The product of the command.
ghost use Rattle.std.specs.Prelude.{◌≡◌};

use crate::counts::summary_of;
use plan_core::Plan;
use plan_text::Summary;
use std::marker::Model;

/// A plan with its counts.
#[derive(Drop)]
pub struct Counted {
    plan: Plan,
    summary: Summary,
}

impl Model for Counted {
    ghost use Rattle.grid_command.specs.Counted.{CountedRecord, IsCountedPlan};

    ghost Value = { CountedRecord };

    ghost view = { λ c. record { plan = c.plan; summary = c.summary } };

    ghost invariant = { λ c. IsCountedPlan (record { plan = c.plan; summary = c.summary }) };
}

impl Counted {
    ghost use Rattle.grid_command.specs.Counted.{IsCountedPlan, is_whole};

    /// A plan with its counts.
    pub(crate) fn of(plan: Plan) -> Counted
        ensures plan { result.plan ≡ plan }
        ensures counts { IsCountedPlan result }
    {
        let summary = summary_of(&plan);
        Counted { plan, summary }
    }

    /// The plan.
    pub fn plan(&self) -> &Plan
        ensures { result.now ≡ self.now.plan }
    {
        &self.plan
    }

    /// Its counts.
    pub fn summary(&self) -> Summary
        ensures value { result ≡ self.now.summary }
        ensures counts { IsCountedPlan self.now }
    {
        self.summary
    }

    /// Whether no satellite is refused and each pair is spans. Rows of light do not count.
    pub fn is_whole(&self) -> bool
        ensures { result ≡ is_whole self.now.summary }
    {
        let counts = self.summary;
        counts.refused == 0 && counts.unresolved == 0 && counts.full == 0 && counts.decays == 0
    }
}
