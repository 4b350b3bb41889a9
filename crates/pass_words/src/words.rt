//! The words of the command line.
ghost use Rattle.std.specs.Prelude.{◌≡◌, IfOk, Some};
ghost use Rattle.pass_words.specs.Names.{AreNamesIn};
ghost use Rattle.pass_words.specs.Ranges.{IsInRange};
ghost use Rattle.pass_words.specs.Words.{command_value, words_value};

use crate::command::{Command, command_of};
use crate::fault::{UsageFault, WordFault};
use crate::placed::placed;
use crate::request::Request;
use crate::requests::request_of;
use elements::Text;

/// The request of words whose first is that of the command.
fn command_request(command: Command, words: &[Text]) -> Result<Request, WordFault>
    ensures value { result ≡ command_value (Some command) words.now }
    ensures ranges { IfOk result IsInRange }
    ensures names { IfOk result (AreNamesIn words.now) }
{
    match placed(command.keys(), words) {
        Ok(found) => request_of(command, words, &found),
        Err(fault) => Err(WordFault::Usage(fault)),
    }
}

/// The request that the words of the command line make, of which the first is the command; or their first fault.
#[tactic(auto, unfolding(crate::specs::Words::words_value))]
pub fn read_words(words: &[Text]) -> Result<Request, WordFault>
    ensures value { result ≡ words_value words.now }
    ensures ranges { IfOk result IsInRange }
    ensures names { IfOk result (AreNamesIn words.now) }
{
    match words {
        [] => Err(WordFault::Usage(UsageFault::NoCommand)),
        [first, ..] => match command_of(first.bytes()) {
            Some(command) => command_request(command, words),
            None => Err(WordFault::Usage(UsageFault::Command)),
        },
    }
}
