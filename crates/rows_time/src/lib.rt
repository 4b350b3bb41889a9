//! Tests of instants, of the reader of civil time and of the texts of instants.
#![tactic(auto)]

ghost use Rattle.rows_time.specs.WholeInstants.{WholeInstants};

#[cfg(test)]
mod days;
#[cfg(test)]
mod reading;
#[cfg(test)]
mod texts;

/// Instants that nine and four decimals write in full.
#[tactic(auto, using(crate::proofs::WholeCases::whole_instants))]
pub fn whole_instants()
    ensures { WholeInstants }
{}
