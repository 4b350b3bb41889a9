ghost use Rattle.std.specs.Prelude.{List, ℕ};
ghost use Rattle.std.specs.declared.option.Option.{Option};
ghost use Rattle.std.specs.Io.{WritesAtMost};
ghost use Rattle.outside_io.specs.Words.{IsWordAt};

use std::env::FillError;

/// Where a program's words come from: the arguments behind its name.
pub trait Arguments {
    /// The words, where they are told.
    ghost told: { Self → Option (List (List ℕ)) };

    /// Copies the word at this place, counted from 0, to the front of the buffer, and answers how many bytes it has.
    fn word(&self, place: usize, buffer: &mut [u8]) -> Result<usize, FillError>
        ensures bound { WritesAtMost result buffer.new }
        ensures word { IsWordAt (told self.now) place buffer.new result };
}
