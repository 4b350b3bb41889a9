//! Tests of the command `locate` of the program but its `main`, and the definitions of its answers on small cases.
#![tactic(auto)]

ghost use Rattle.rows_locate.specs.EveryPosition.{EveryPositionLiesInside};
ghost use Rattle.rows_locate.specs.PositionLaws.{BoundsHoldPositions, FoundAsItIs};
ghost use Rattle.rows_locate.specs.SmallAnswers.{SmallAnswers, SmallEdges};

#[cfg(test)]
mod calls;
#[cfg(test)]
mod fates;
#[cfg(test)]
mod placed;
#[cfg(test)]
mod sets;
#[cfg(test)]
mod unlocated;

/// What the answers of `locate` say of small catalogues, and what they do not.
pub fn small_answers()
    ensures { SmallAnswers }
{}

/// Bounds of an Earth radius, and bounds that are near each other.
pub fn small_edges()
    ensures { SmallEdges }
{}

/// What bounds say of the positions of a satellite.
pub fn bounds_hold_positions()
    ensures { BoundsHoldPositions }
{}

/// Which satellite is found, and what is known of it.
pub fn found_as_it_is()
    ensures { FoundAsItIs }
{}

/// Where every position of a satellite lies, whatever pi, constants, mean elements and root of Kepler's equation give it.
pub fn every_position_lies_inside()
    ensures { EveryPositionLiesInside }
{}
