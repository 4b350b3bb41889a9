//! What each line of a message is.
ghost use Rattle.std.specs.Prelude.{◌≡◌, ◌<◌, length, position, IfSome};
ghost use Rattle.omm_kvn.specs.Kinds as spec;

use crate::key::{Key, key_of};
use crate::piece::Piece;
use crate::place::Place;

/// What a line is.
#[derive(Clone, Copy)]
pub(crate) enum Kind {
    /// It is passed over: a blank line, a comment, or a keyword that is not read.
    Passed,
    /// It is a keyword and the place of its value.
    Entry { key: Key, value: Place },
    /// It is nothing of these.
    Malformed,
}

/// Whether nothing stands there, or a blank first.
fn is_ended(rest: &[u8]) -> bool
    ensures { result ≡ spec.is_ended rest.now }
{
    match rest {
        [] => true,
        [b' ' | b'\t', ..] => true,
        _ => false,
    }
}

/// Whether a line is `COMMENT`, alone or before a blank and text.
fn is_comment(line: &[u8]) -> bool
    ensures { result ≡ spec.is_comment line.now }
{
    line.starts_with(b"COMMENT") && is_ended(&line[7..])
}

/// Where the keyword ends that a line begins with.
fn keyword_end(line: &[u8]) -> Option<usize>
    ensures value { result ≡ spec.keyword_end line.now }
    ensures bound { IfSome result (λ end. end < length line.now) }
{
    line.iter().position(|byte| !is_keyword_byte(*byte))
}

/// Whether the byte may stand in a keyword.
fn is_keyword_byte(byte: u8) -> bool
    ensures { result ≡ spec.is_keyword_byte byte }
{
    matches!(byte, b'A'..=b'Z' | b'0'..=b'9' | b'_')
}

/// Where the value stands, if `=` stands first.
fn value_place(rest: &Piece) -> Option<Place>
    ensures { result ≡ spec.value_place rest.now }
{
    match rest.bytes() {
        [b'=', value @ ..] => {
            let value = Piece::make(rest.from() + 1, value).past_blanks();
            Some(value.place())
        }
        _ => None,
    }
}

/// What a line is that begins with a keyword of so many bytes.
fn entry(line: &Piece, width: usize) -> Kind
    requires { width < length line.now.bytes }
    ensures { result ≡ spec.entry line.now width }
{
    let (keyword, rest) = line.bytes().split_at(width);
    let rest = Piece::make(line.from() + width as u32, rest).past_blanks();
    match value_place(&rest) {
        Some(value) => match key_of(keyword) {
            Some(key) => Kind::Entry { key, value },
            None => Kind::Passed,
        },
        None => Kind::Malformed,
    }
}

/// What a line without blanks at its ends is, if it is not passed over.
fn kind_written(line: &Piece) -> Kind
    ensures { result ≡ spec.kind_written line.now }
{
    match keyword_end(line.bytes()) {
        Some(0) => Kind::Malformed,
        Some(width) => entry(line, width),
        None => Kind::Malformed,
    }
}

/// What a line is.
#[tactic(auto, unfolding(crate::specs::Kinds::kind_of))]
pub(crate) fn kind_of(line: &Piece) -> Kind
    ensures { result ≡ spec.kind_of line.now }
{
    let line = line.trimmed();
    if line.bytes().is_empty() || is_comment(line.bytes()) {
        Kind::Passed
    } else {
        kind_written(&line)
    }
}
