//! Laws of how stations see satellites.
ghost use Rattle.station_view.specs.SightLaws.{RangesAreLong, SharpGrazingIsGrazing};

/// A satellite that is far enough out is far enough from each station.
#[tactic(auto, using(crate::proofs::SightLawLemmas::ranges_are_long))]
pub fn ranges_are_long()
    ensures { RangesAreLong }
{}

/// A solution that grazes its mask within 2^-15 Earth radii grazes it by 0.001, or by 0.002 where its range is short.
#[tactic(auto, using(crate::proofs::SightLawLemmas::sharp_grazing_is_grazing))]
pub fn sharp_grazing_is_grazing()
    ensures { SharpGrazingIsGrazing }
{}
