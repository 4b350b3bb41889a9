use crate::arguments::Arguments;
use std::alloc::{AllocError, Global};
use std::env::FillError;
use std::marker::Model;

/// Words in memory.
#[derive(Drop)]
pub struct MemoryWords {
    alloc: Global,
    words: Vec<Vec<u8>>,
}

impl Model for MemoryWords {
    ghost use Rattle.std.specs.Prelude.{ℕ, List, map};

    ghost Value = { List (List ℕ) };

    ghost view = { λ m. map (λ word. word.items) m.words.items };
}

impl MemoryWords {
    ghost use Rattle.std.specs.Prelude.{◌≡◌, [], ◌∷◌, ◌++◌, OnOk, OnErr};

    /// No words.
    pub fn make(alloc: Global) -> MemoryWords
        ensures { result ≡ [] }
    {
        MemoryWords {
            alloc,
            words: Vec::new(alloc),
        }
    }

    /// Adds a word at the end.
    pub fn add(&mut self, word: &[u8]) -> Result<(), AllocError>
        ensures ok { OnOk result (self.new ≡ self.old ++ word.now ∷ []) }
        ensures err { OnErr result (self.new ≡ self.old) }
    {
        let word = Vec::from_slice(self.alloc, word)?;
        self.words.push(word)?;
        Ok(())
    }
}

impl Arguments for MemoryWords {
    ghost use Rattle.std.specs.Prelude.{Some};
    ghost use Rattle.std.specs.Io.{WritesAtMost};
    ghost use Rattle.outside_io.specs.Words.{IsWordAt};

    ghost told = { λ m. Some m };

    fn word(&self, place: usize, buffer: &mut [u8]) -> Result<usize, FillError>
        ensures bound { WritesAtMost result buffer.new }
        ensures word { IsWordAt (Some self.now) place buffer.new result }
    {
        let Some(word) = self.words.get(place) else {
            return Err(FillError::NotPresent);
        };
        let word = word.as_slice();
        if word.len() > buffer.len() {
            return Err(FillError::TooLong);
        }
        buffer[..word.len()].copy_from_slice(word);
        Ok(word.len())
    }
}
