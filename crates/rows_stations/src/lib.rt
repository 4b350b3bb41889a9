//! Tests of station files, and the plain records of stations on a small case.
#![tactic(auto)]

ghost use Rattle.rows_stations.specs.SmallRecords.{SmallRecords};

#[cfg(test)]
mod faults;
#[cfg(test)]
mod makers;
#[cfg(test)]
mod offsets;
#[cfg(test)]
mod stations;

/// The plain records of a small sector and of a small station.
#[tactic(auto, using(crate::proofs::SmallRecords::small_records))]
pub fn small_records()
    ensures { SmallRecords }
{}
