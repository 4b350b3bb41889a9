//! The commands.
ghost use Rattle.std.specs.Prelude.{◌≡◌};
ghost use Rattle.pass_words.specs.Commands.{command_in, command_of, is_named, keys_of, word_of};

use crate::key::Opt;

/// A command of the program.
#[derive(Clone, Copy)]
pub(crate) enum Command {
    /// Daylight of one place.
    Day,
    /// When stations see satellites.
    Plan,
    /// The element sets of a file that are nearest to an instant.
    Show,
    /// The position of one satellite at an instant.
    Locate,
    /// A generated catalogue, planned and counted.
    Grid,
    /// The contacts of the stations, allotted to antennas.
    Book,
}

/// All commands.
const COMMANDS: [Command; 6] = [
    Command::Day,
    Command::Plan,
    Command::Show,
    Command::Locate,
    Command::Grid,
    Command::Book,
];

impl Command {
    /// The word of the command.
    fn word(self) -> &'static [u8]
        ensures { result.now ≡ word_of self }
    {
        match self {
            Command::Day => b"day",
            Command::Plan => b"plan",
            Command::Show => b"show",
            Command::Locate => b"locate",
            Command::Grid => b"grid",
            Command::Book => b"book",
        }
    }

    /// The keys of the options of the command, in their order.
    pub(crate) fn keys(self) -> &'static [Opt]
        ensures { result.now ≡ keys_of self }
    {
        match self {
            Command::Day => &[Opt::Lat, Opt::Lon, Opt::Start, Opt::End, Opt::Res],
            Command::Plan => &[
                Opt::Catalogue,
                Opt::Stations,
                Opt::Start,
                Opt::End,
                Opt::Res,
            ],
            Command::Show => &[Opt::Catalogue, Opt::Start],
            Command::Locate => &[Opt::Catalogue, Opt::Number, Opt::At],
            Command::Grid => &[Opt::Count],
            Command::Book => &[
                Opt::Catalogue,
                Opt::Stations,
                Opt::Start,
                Opt::End,
                Opt::Res,
                Opt::Antennas,
            ],
        }
    }
}

/// Whether a word is that of a command.
fn is_named(command: Command, word: &[u8]) -> bool
    ensures { result ≡ is_named word.now command }
{
    command.word() == word
}

/// The command among these that a word names, if there is one.
fn command_in(commands: &[Command], word: &[u8]) -> Option<Command>
    ensures { result ≡ command_in commands.now word.now }
{
    commands
        .iter()
        .copied()
        .find(|command| is_named(*command, word))
}

/// The command that a word names, if there is one.
pub(crate) fn command_of(word: &[u8]) -> Option<Command>
    ensures { result ≡ command_of word.now }
{
    command_in(&COMMANDS, word)
}
