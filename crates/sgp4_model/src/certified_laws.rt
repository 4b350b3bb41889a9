//! Laws of lists of spans.

ghost use Rattle.sgp4_model.specs.Certified.{TrackRecord};
ghost use Rattle.sgp4_model.specs.CertifiedLaws.{EmptyListTiles, OnlySinkingTracksDecay, SoundListsExtend, TilesHoldEachPlace};

/// Something that has a track.
pub trait Tracked {
    ghost track: { TrackRecord };
}

/// No spans tile nothing: the empty list leads from 0 to 0.
pub fn the_empty_list_tiles()
    ensures { EmptyListTiles }
{}

/// A sound list and a true span of another mark, that begins where the list ends, are sound up to the span's end.
pub fn sound_lists_extend<T: Tracked>()
    ensures { SoundListsExtend T.track }
{}

/// Each place up to a tick lies in some span of a list that tiles 0 to it.
pub fn tiles_hold_each_place()
    ensures { TilesHoldEachPlace }
{}

/// A row that decays is certified only where its track sinks at some place.
pub fn only_sinking_tracks_decay<T: Tracked>()
    ensures { OnlySinkingTracksDecay T.track }
{}
