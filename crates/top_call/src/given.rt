//! A run of the words that the program is given.
ghost use Rattle.std.specs.Prelude.{◌≡◌, ℕ, List, IfOk};
ghost use Rattle.std.specs.Process.{exit_status};
ghost use Rattle.outside_io.specs.Words.{AreTold};
ghost use Rattle.run_ends.specs.Counted.{AreAllowed};
ghost use Rattle.top_call.specs.Ended.{IsEnded};
ghost use Rattle.top_call.specs.Given.{IsGiven};
ghost use Rattle.top_call.specs.Outcome.{status_of};
ghost use Rattle.top_call.specs.Request.{files_in};

use crate::outcome::{Outcome, status};
use crate::top::run;
use elements::Text;
use outside_io::{Arguments, Shelf, Sink};
use pass_text::memory_line;
use run_ends::put_refusal;
use std::alloc::{AllocError, Global};
use std::env::FillError;
use std::process::ExitCode;

/// Does what the words behind the program's name ask for, and answers what the program is to end with. Only files that
/// these words name are asked for.
pub fn run_given<W: Arguments, S: Shelf, K: Sink>(
    alloc: Global,
    arguments: &W,
    shelf: &mut S,
    out: &mut K,
) -> ExitCode
    requires { (words : List (List ℕ)) → AreTold (W.told arguments.now) words → AreAllowed S.Shelf shelf.old (files_in words) }
    ensures { IsEnded S.Shelf K.Sink (W.told arguments.now) (exit_status result) shelf.old shelf.new out.old out.new }
{
    match given_words(alloc, arguments) {
        Ok(words) => code_of(&run(alloc, &words, shelf, out)),
        Err(AllocError) => {
            put_refusal(memory_line().bytes(), out);
            code_of(&Outcome::OutOfMemory)
        }
    }
}

/// The exit status of an outcome, as `main` returns it.
fn code_of(outcome: &Outcome) -> ExitCode
    ensures { exit_status result ≡ status_of outcome.now }
{
    ExitCode::from(status(outcome))
}

/// The words behind the program's name, as bytes, whether or not they are text.
fn given_words<W: Arguments>(alloc: Global, arguments: &W) -> Result<Vec<Text>, AllocError>
    ensures { IfOk result (λ words. AreTold (W.told arguments.now) words.items) }
{
    let mut words = Vec::new(alloc);
    for place in 0..usize::MAX {
        match given_word(alloc, arguments, place)? {
            Some(word) => words.push(word)?,
            None => return Ok(words),
        }
    }
    Err(AllocError)
}

/// One argument. The buffer is doubled where the argument is longer.
fn given_word<W: Arguments>(
    alloc: Global,
    arguments: &W,
    place: usize,
) -> Result<Option<Text>, AllocError>
    ensures { IfOk result (IsGiven (W.told arguments.now) place) }
{
    let mut room = 256usize;
    for _ in 0..40 {
        let mut buffer = vec![in alloc; 0u8; room]?;
        match arguments.word(place, &mut buffer) {
            Ok(count) => return Ok(Some(Text::copy(alloc, &buffer[..count])?)),
            Err(FillError::NotPresent) => return Ok(None),
            Err(FillError::TooLong) => room = room.saturating_mul(2),
        }
    }
    Err(AllocError)
}
