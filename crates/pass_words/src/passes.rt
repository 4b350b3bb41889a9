//! The files and the window of passes.
ghost use Rattle.std.specs.Prelude.{◌≡◌};
ghost use Rattle.pass_words.specs.Found.{places_in};
ghost use Rattle.pass_words.specs.Passes.{passes_given};

use crate::fault::WordFault;
use crate::found::Found;
use crate::key::Opt;
use crate::part::Part;
use crate::values::{part_given, window_given};
use elements::{Text, Window};

/// The passes of the satellites of one file over the stations of another in a window.
#[derive(Clone, Copy)]
pub(crate) struct Passes {
    pub(crate) catalogue: Part,
    pub(crate) stations: Part,
    pub(crate) window: Window,
}

/// The files and the window of passes, of the values of `catalogue`, `stations`, `start`, `end` and `res`.
pub(crate) fn passes_given(words: &[Text], found: &Found) -> Result<Passes, WordFault>
    ensures { result ≡ passes_given words.now (places_in found.now) }
{
    let window = window_given(words, found)?;
    Ok(Passes {
        catalogue: part_given(found, Opt::Catalogue),
        stations: part_given(found, Opt::Stations),
        window,
    })
}
