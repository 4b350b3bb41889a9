//! The requests of the commands, of the values of their options.
ghost use Rattle.std.specs.Prelude.{◌≡◌, IfOk};
ghost use Rattle.pass_words.specs.Book.{book_request};
ghost use Rattle.pass_words.specs.Commands.{request_of};
ghost use Rattle.pass_words.specs.Day.{day_request};
ghost use Rattle.pass_words.specs.Found.{places_in};
ghost use Rattle.pass_words.specs.Grid.{grid_request};
ghost use Rattle.pass_words.specs.Locate.{locate_request};
ghost use Rattle.pass_words.specs.Plan.{plan_request};
ghost use Rattle.pass_words.specs.Ranges.{IsInRange};
ghost use Rattle.pass_words.specs.Show.{show_request};

use crate::command::Command;
use crate::fault::WordFault;
use crate::found::Found;
use crate::key::Opt;
use crate::passes::passes_given;
use crate::request::Request;
use crate::values::{
    degrees_given, instant_given, number_given, part_given, plain_count_given, short_count_given,
    window_given,
};
use elements::Text;

/// The request of `day`.
fn day_request(words: &[Text], found: &Found) -> Result<Request, WordFault>
    ensures value { result ≡ day_request words.now (places_in found.now) }
    ensures ranges { IfOk result IsInRange }
{
    let lat = degrees_given(words, found, Opt::Lat, -90, 90)?;
    let lon = degrees_given(words, found, Opt::Lon, -180, 360)?;
    let window = window_given(words, found)?;
    Ok(Request::Day { lat, lon, window })
}

/// The request of `plan`.
fn plan_request(words: &[Text], found: &Found) -> Result<Request, WordFault>
    ensures value { result ≡ plan_request words.now (places_in found.now) }
    ensures ranges { IfOk result IsInRange }
{
    let passes = passes_given(words, found)?;
    Ok(Request::Plan {
        catalogue: passes.catalogue,
        stations: passes.stations,
        window: passes.window,
    })
}

/// The request of `show`.
fn show_request(words: &[Text], found: &Found) -> Result<Request, WordFault>
    ensures value { result ≡ show_request words.now (places_in found.now) }
    ensures ranges { IfOk result IsInRange }
{
    let catalogue = part_given(found, Opt::Catalogue);
    let start = instant_given(words, found, Opt::Start)?;
    Ok(Request::Show { catalogue, start })
}

/// The request of `locate`.
fn locate_request(words: &[Text], found: &Found) -> Result<Request, WordFault>
    ensures value { result ≡ locate_request words.now (places_in found.now) }
    ensures ranges { IfOk result IsInRange }
{
    let catalogue = part_given(found, Opt::Catalogue);
    let number = number_given(words, found, Opt::Number)?;
    let at = instant_given(words, found, Opt::At)?;
    Ok(Request::Locate {
        catalogue,
        number,
        at,
    })
}

/// The request of `grid`.
fn grid_request(words: &[Text], found: &Found) -> Result<Request, WordFault>
    ensures value { result ≡ grid_request words.now (places_in found.now) }
    ensures ranges { IfOk result IsInRange }
{
    let count = plain_count_given(words, found, Opt::Count, 1_000)?;
    Ok(Request::Grid { count })
}

/// The request of `book`.
fn book_request(words: &[Text], found: &Found) -> Result<Request, WordFault>
    ensures value { result ≡ book_request words.now (places_in found.now) }
    ensures ranges { IfOk result IsInRange }
{
    let antennas = short_count_given(words, found, Opt::Antennas, 64)?;
    let passes = passes_given(words, found)?;
    Ok(Request::Book {
        catalogue: passes.catalogue,
        stations: passes.stations,
        window: passes.window,
        antennas,
    })
}

/// The request of a command, of the values of its options.
pub(crate) fn request_of(
    command: Command,
    words: &[Text],
    found: &Found,
) -> Result<Request, WordFault>
    ensures value { result ≡ request_of command words.now (places_in found.now) }
    ensures ranges { IfOk result IsInRange }
{
    match command {
        Command::Day => day_request(words, found),
        Command::Plan => plan_request(words, found),
        Command::Show => show_request(words, found),
        Command::Locate => locate_request(words, found),
        Command::Grid => grid_request(words, found),
        Command::Book => book_request(words, found),
    }
}
