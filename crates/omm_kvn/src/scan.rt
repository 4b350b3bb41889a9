//! The lines of a message, read one after another.
ghost use Rattle.std.specs.Prelude.{◌≡◌, ◌≤◌, ◌<◌, ◌==◌, ◌+◌, length, take, drop, position, IfSome};
ghost use Rattle.omm_kvn.specs.Entries.{entries, is_unread};
ghost use Rattle.omm_kvn.specs.Found.{found_places, places_in, taken};
ghost use Rattle.omm_kvn.specs.Pieces.{most_bytes};

use crate::fault::OmmFault;
use crate::found::Found;
use crate::key::Key;
use crate::line::{Kind, kind_of};
use crate::piece::Piece;

/// Whether the key belongs to elements of a theory that is not read.
fn is_unread(key: Key) -> bool
    ensures { result ≡ is_unread key }
{
    matches!(key, Key::SemiMajorAxis | Key::Bterm | Key::Agom)
}

/// Adds the line with this number to what was found.
fn taken(mut found: Found, number: u32, line: Kind) -> Result<Found, OmmFault>
    ensures { found_places result ≡ taken number (places_in found) line }
{
    match line {
        Kind::Passed => Ok(found),
        Kind::Entry { key, value } => {
            if is_unread(key) {
                return Err(OmmFault::Unsupported { key });
            }
            if found.place(key).is_some() {
                return Err(OmmFault::Twice { key });
            }
            found.add(key, value);
            Ok(found)
        }
        Kind::Malformed => Err(OmmFault::Line { line: number }),
    }
}

/// Where the first line of a text ends, if a line feed ends it.
fn line_end(text: &[u8]) -> Option<usize>
    ensures value { result ≡ position (λ byte. byte == 10) text.now }
    ensures bound { IfSome result (λ end. end < length text.now) }
{
    text.iter().position(|byte| *byte == b'\n')
}

/// What stands before a place of a text, and what stands behind the byte there.
fn cut(text: &[u8], at: usize) -> (&[u8], &[u8])
    requires { at < length text.now }
    ensures before { result.0.now ≡ take at text.now }
    ensures len { length result.0.now ≡ at }
    ensures behind { result.1.now ≡ drop (at + 1) text.now }
    ensures rest { length result.1.now + (at + 1) ≡ length text.now }
{
    (&text[..at], &text[at + 1..])
}

/// Where the values of the keys stand, or the first line that is at fault.
pub(crate) fn scan(text: &[u8]) -> Result<Found, OmmFault>
    requires { length text.now ≤ most_bytes }
    ensures { found_places result ≡ entries text.now }
{
    let mut found = Found::none();
    let mut number = 1;
    let mut from = 0;
    let mut rest = text;
    while let Some(end) = line_end(rest) {
        let (line, behind) = cut(rest, end);
        found = taken(found, number, kind_of(&Piece::make(from, line)))?;
        rest = behind;
        from += end as u32 + 1;
        number += 1;
    }
    taken(found, number, kind_of(&Piece::make(from, rest)))
}
