//! The values that the words give for keys.
ghost use Rattle.std.specs.Prelude.{◌≡◌, ◌<◌, ◌^◌, IfOk};
ghost use Rattle.decimals.specs.Decimal.{value};
ghost use Rattle.elements.specs.Elements.{IsFromTo};
ghost use Rattle.pass_words.specs.Found.{places_in};
ghost use Rattle.pass_words.specs.Ranges.{IsCount};
ghost use Rattle.pass_words.specs.Values.{degrees_given, instant_given, number_given, part_given, window_given};
ghost use Rattle.pass_words.specs.Values.{plain_count_given, short_count_given};

use crate::counts::count_read;
use crate::degrees::degrees_read;
use crate::digits::{plain_number, short_number};
use crate::fault::WordFault;
use crate::found::Found;
use crate::instant::instant_read;
use crate::key::Opt;
use crate::number::number;
use crate::part::Part;
use crate::placed::text_of;
use crate::window::window;
use civil_time::read_utc;
use decimals::read_decimal;
use elements::{Decimal, Instant, Text, Window};

/// The decimal from one whole number to another that a key's value writes.
pub(crate) fn degrees_given(
    words: &[Text],
    found: &Found,
    key: Opt,
    low: i32,
    high: i32,
) -> Result<Decimal, WordFault>
    ensures value { result ≡ degrees_given words.now (places_in found.now) key low high }
    ensures range { IfOk result (λ degrees. IsFromTo low high (value degrees)) }
{
    match degrees_read(key, low, high, read_decimal(text_of(words, found, key))) {
        Ok(degrees) => Ok(degrees),
        Err(fault) => Err(WordFault::Usage(fault)),
    }
}

/// The window of the values of `start`, `end` and `res`.
pub(crate) fn window_given(words: &[Text], found: &Found) -> Result<Window, WordFault>
    ensures { result ≡ window_given words.now (places_in found.now) }
{
    let start = text_of(words, found, Opt::Start);
    let last = text_of(words, found, Opt::End);
    match window(start, last, text_of(words, found, Opt::Res)) {
        Ok(window) => Ok(window),
        Err(fault) => Err(WordFault::Window(fault)),
    }
}

/// The instant of a key's value.
pub(crate) fn instant_given(words: &[Text], found: &Found, key: Opt) -> Result<Instant, WordFault>
    ensures { result ≡ instant_given words.now (places_in found.now) key }
{
    match instant_read(read_utc(text_of(words, found, key))) {
        Ok(instant) => Ok(instant),
        Err(fault) => Err(WordFault::Window(fault)),
    }
}

/// The number that a key's value writes in one to nine digits.
pub(crate) fn number_given(words: &[Text], found: &Found, key: Opt) -> Result<u32, WordFault>
    ensures value { result ≡ number_given words.now (places_in found.now) key }
    ensures range { IfOk result (λ number. number < 10 ^ 9) }
{
    match number(key, text_of(words, found, key)) {
        Ok(number) => Ok(number),
        Err(fault) => Err(WordFault::Usage(fault)),
    }
}

/// The number from 1 to the most that a key's value writes in one or two digits.
pub(crate) fn short_count_given(
    words: &[Text],
    found: &Found,
    key: Opt,
    most: u32,
) -> Result<u32, WordFault>
    ensures value { result ≡ short_count_given words.now (places_in found.now) key most }
    ensures range { IfOk result (IsCount most) }
{
    match count_read(key, most, short_number(text_of(words, found, key))) {
        Ok(count) => Ok(count),
        Err(fault) => Err(WordFault::Usage(fault)),
    }
}

/// The number from 1 to the most that a key's value writes in digits without a leading zero.
pub(crate) fn plain_count_given(
    words: &[Text],
    found: &Found,
    key: Opt,
    most: u32,
) -> Result<u32, WordFault>
    ensures value { result ≡ plain_count_given words.now (places_in found.now) key most }
    ensures range { IfOk result (IsCount most) }
{
    match count_read(key, most, plain_number(text_of(words, found, key))) {
        Ok(count) => Ok(count),
        Err(fault) => Err(WordFault::Usage(fault)),
    }
}

/// Where a key's value stands.
pub(crate) fn part_given(found: &Found, key: Opt) -> Part
    ensures { result ≡ part_given (places_in found.now) key }
{
    found.place(key).unwrap_or(Part { word: 0, from: 0 })
}
