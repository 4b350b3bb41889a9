//! The place of a value in a text.
ghost use Rattle.std.specs.Prelude.{◌≡◌};
ghost use Rattle.omm_kvn.specs.Places.{bytes_at};

/// Where a value stands: the number of its first byte, and that of the byte after its last one.
#[derive(Clone, Copy)]
pub(crate) struct Place {
    pub(crate) from: u32,
    pub(crate) to: u32,
}

/// The bytes of a text at a place, as far as the text has them.
pub(crate) fn bytes_at(text: &[u8], place: Place) -> &[u8]
    ensures { result.now ≡ bytes_at text.now place }
{
    let count = place.to.saturating_sub(place.from) as usize;
    match text.get(place.from as usize..) {
        Some(rest) => match rest.get(..count) {
            Some(bytes) => bytes,
            None => rest,
        },
        None => &[],
    }
}
