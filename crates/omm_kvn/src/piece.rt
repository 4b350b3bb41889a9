//! A piece of a text.
use crate::place::Place;
use std::marker::Model;

/// Some bytes of a text, and the number of the byte where they begin.
#[derive(Drop)]
pub(crate) struct Piece<'a> {
    from: u32,
    bytes: &'a [u8],
}

impl<'a> Model for Piece<'a> {
    ghost use Rattle.omm_kvn.specs.Pieces.{PieceRecord, IsPiece};

    ghost Value = { PieceRecord };

    ghost view = { λ a. record { from = a.from; bytes = a.bytes.now } };

    ghost invariant = { λ a. IsPiece (record { from = a.from; bytes = a.bytes.now }) };
}

impl<'a> Piece<'a> {
    ghost use Rattle.std.specs.Prelude.{◌≡◌, ◌+◌, ◌≤◌, length};
    ghost use Rattle.omm_kvn.specs.Pieces.{most_bytes, past_blanks, trimmed};
    ghost use Rattle.omm_kvn.specs.Places.{place_of_piece};

    /// The piece of these bytes, which begin at this place.
    pub(crate) fn make(from: u32, bytes: &'a [u8]) -> Piece<'a>
        requires { from + length bytes.now ≤ most_bytes }
        ensures { result ≡ record { from = from; bytes = bytes.now } }
    {
        Piece { from, bytes }
    }

    /// The number of the byte where it begins.
    pub(crate) fn from(&self) -> u32
        ensures value { result ≡ self.now.from }
        ensures bound { self.now.from + length self.now.bytes ≤ most_bytes }
    {
        self.from
    }

    /// Its bytes.
    pub(crate) fn bytes(&self) -> &'a [u8]
        ensures value { result.now ≡ self.now.bytes }
        ensures bound { self.now.from + length self.now.bytes ≤ most_bytes }
    {
        self.bytes
    }

    /// Where it stands.
    pub(crate) fn place(&self) -> Place
        ensures { result ≡ place_of_piece self.now }
    {
        Place {
            from: self.from(),
            to: self.from() + self.bytes().len() as u32,
        }
    }

    /// The piece from the first byte on that is no blank.
    pub(crate) fn past_blanks(&self) -> Piece<'a>
        ensures { result ≡ past_blanks self.now.from self.now.bytes }
    {
        let mut from = self.from;
        let mut bytes = self.bytes;
        while let [b' ' | b'\t', rest @ ..] = bytes {
            from += 1;
            bytes = rest;
        }
        Piece { from, bytes }
    }

    /// The piece without the blanks at its ends, and without carriage returns behind.
    pub(crate) fn trimmed(&self) -> Piece<'a>
        ensures { result ≡ trimmed self.now }
    {
        let kept = self.past_blanks();
        let mut bytes = kept.bytes;
        while let [rest @ .., b' ' | b'\t' | b'\r'] = bytes {
            bytes = rest;
        }
        Piece {
            from: kept.from,
            bytes,
        }
    }
}
