//! What words ask for, as numbers and texts.
use elements::{Decimal, Text, Window};
use pass_words::{Part, Request, WordFault, read_words, text_at};
use std::str;

/// The digits and the places of a decimal.
type Digits = (i64, u8);

/// The start in nanoseconds from 2000-01-01T12:00:00 UTC, the ticks and the resolution of a window.
type Numbers = (i64, u64, u64);

/// A word, how many of its bytes stand before a name, and the name.
type Name<'a> = (u64, u64, &'a str);

/// What the words ask for, each instant in nanoseconds from 2000-01-01T12:00:00 UTC.
#[derive(Clone, Copy, Debug, PartialEq, Eq)]
pub enum Asked<'a> {
    Day(Digits, Digits, Numbers),
    Plan {
        catalogue: Name<'a>,
        stations: Name<'a>,
        window: Numbers,
    },
    Show {
        catalogue: Name<'a>,
        start: i64,
    },
    Locate {
        catalogue: Name<'a>,
        number: u32,
        at: i64,
    },
    Grid {
        count: u32,
    },
    Book {
        catalogue: Name<'a>,
        stations: Name<'a>,
        window: Numbers,
        antennas: u32,
    },
}

/// The digits and the places of a decimal.
fn digits(decimal: Decimal) -> Digits {
    (decimal.digits(), decimal.places())
}

/// The start, the ticks and the resolution of a window.
fn numbers(window: Window) -> Numbers {
    (window.start().nanos(), window.ticks(), window.resolution())
}

/// The name at a part of the words.
fn name(words: &[Text], part: Part) -> Name<'_> {
    let text = str::from_utf8(text_at(words, part)).unwrap_or("no text");
    (part.word, part.from, text)
}

/// What a request of the words asks for.
fn values_of(words: &[Text], request: Request) -> Asked<'_> {
    match request {
        Request::Day { lat, lon, window } => Asked::Day(digits(lat), digits(lon), numbers(window)),
        Request::Plan {
            catalogue,
            stations,
            window,
        } => Asked::Plan {
            catalogue: name(words, catalogue),
            stations: name(words, stations),
            window: numbers(window),
        },
        Request::Show { catalogue, start } => Asked::Show {
            catalogue: name(words, catalogue),
            start: start.nanos(),
        },
        Request::Locate {
            catalogue,
            number,
            at,
        } => Asked::Locate {
            catalogue: name(words, catalogue),
            number,
            at: at.nanos(),
        },
        Request::Grid { count } => Asked::Grid { count },
        Request::Book {
            catalogue,
            stations,
            window,
            antennas,
        } => Asked::Book {
            catalogue: name(words, catalogue),
            stations: name(words, stations),
            window: numbers(window),
            antennas,
        },
    }
}

/// What the words ask for, or their fault.
pub fn answer(words: &[Text]) -> Result<Asked<'_>, WordFault> {
    match read_words(words) {
        Ok(request) => Ok(values_of(words, request)),
        Err(fault) => Err(fault),
    }
}
