//! How far an element set is from an instant.
ghost use Rattle.std.specs.Prelude.{◌≡◌};
ghost use Rattle.catalogue.specs.Choice.{distance};
ghost use Rattle.catalogue.specs.Keeping.{is_nearer};

use crate::entry::Entry;
use elements::Instant;

/// How far the epoch of a set is from an instant, in nanoseconds.
fn distance(start: Instant, set: &Entry) -> u64
    ensures { result ≡ distance start set.now }
{
    (set.elements.epoch().nanos() - start.nanos()).unsigned_abs()
}

/// Whether the epoch of a set is nearer to an instant than that of another one.
pub(crate) fn is_nearer(start: Instant, set: &Entry, kept: &Entry) -> bool
    ensures { result ≡ is_nearer start set.now kept.now }
{
    distance(start, set) < distance(start, kept)
}
