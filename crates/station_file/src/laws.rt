//! Laws of station files: what is in its ranges is read.
ghost use Rattle.station_file.specs.InRange.{MasksAreRead, OffsetsAreRead, RowsAreRead, StationsAreRead};

/// The borders and elevations of a mask are read as it.
#[tactic(auto, using(crate::proofs::InRangeLemmas::masks_are_read))]
pub fn masks_are_read()
    ensures { MasksAreRead }
{}

/// A station that may stand behind earlier ones is read of a table that gives it.
pub fn rows_are_read()
    ensures { RowsAreRead }
{}

/// An offset from -900 to 900 milliseconds is read.
#[tactic(auto, using(crate::proofs::InRangeLemmas::offsets_are_read))]
pub fn offsets_are_read()
    ensures { OffsetsAreRead }
{}

/// Stations that a file may have are those of an array of them.
#[tactic(auto, using(crate::proofs::InRangeLemmas::stations_are_read))]
pub fn stations_are_read()
    ensures { StationsAreRead }
{}
