//! The lines of a file, one after another.
use crate::cut::{cut, line_end, trimmed};
use std::marker::Model;

/// A line without the blanks at its end, and its number in the file.
#[derive(Drop)]
pub(crate) struct Line<'a> {
    number: u32,
    text: &'a [u8],
}

impl<'a> Model for Line<'a> {
    ghost use Rattle.std.specs.Prelude.{length, ◌≤◌};
    ghost use Rattle.catalogue.specs.Lines.{NumberedLine};
    ghost use Rattle.catalogue.specs.Place.{most_bytes};

    ghost Value = { NumberedLine };

    ghost view = { λ a. record { number = a.number; text = a.text.now } };

    ghost invariant = { λ a. length a.text.now ≤ most_bytes };
}

impl<'a> Line<'a> {
    ghost use Rattle.std.specs.Prelude.{◌≡◌, ◌≤◌, length};
    ghost use Rattle.catalogue.specs.Place.{most_bytes};

    /// Its number, counted from 1.
    pub(crate) fn number(&self) -> u32
        ensures { result ≡ self.now.number }
    {
        self.number
    }

    /// Its bytes, without the blanks at the end.
    pub(crate) fn text(&self) -> &'a [u8]
        ensures value { result.now ≡ self.now.text }
        ensures len { length self.now.text ≤ most_bytes }
    {
        self.text
    }
}

/// A place between the lines of a file.
#[derive(Drop)]
pub(crate) struct Lines<'a> {
    number: u32,
    ended: bool,
    rest: &'a [u8],
}

impl<'a> Model for Lines<'a> {
    ghost use Rattle.catalogue.specs.Place.{PlaceRecord, IsPlace};

    ghost Value = { PlaceRecord };

    ghost view = { λ a. record { number = a.number; ended = a.ended; rest = a.rest.now } };

    ghost invariant = { λ a. IsPlace (record { number = a.number; ended = a.ended; rest = a.rest.now }) };
}

impl<'a> Lines<'a> {
    ghost use Rattle.std.specs.Prelude.{◌≡◌, ◌≤◌, ◌<◌, ◌∷◌, [], length, false, Some, None};
    ghost use Rattle.catalogue.specs.Lines.{NumberedLine, behind, written_lines};
    ghost use Rattle.catalogue.specs.Place.{most_bytes, lines_at, left_at};

    /// The place before the first line of a file.
    pub(crate) fn of(bytes: &'a [u8]) -> Lines<'a>
        requires { length bytes.now ≤ most_bytes }
        ensures { lines_at result ≡ written_lines bytes.now }
    {
        Lines {
            number: 1,
            ended: false,
            rest: bytes,
        }
    }

    /// The next line, blank or not.
    fn take_line(&mut self) -> Line<'a>
        requires { self.old.ended ≡ false }
        ensures line { lines_at self.old ≡ behind result (lines_at self.new) }
        ensures less { left_at self.new < left_at self.old }
    {
        let number = self.number;
        match line_end(self.rest) {
            Some(end) => {
                let (line, rest) = cut(self.rest, end);
                self.number = number + 1;
                self.rest = rest;
                Line {
                    number,
                    text: trimmed(line),
                }
            }
            None => {
                let line = self.rest;
                self.ended = true;
                self.rest = &[];
                Line {
                    number,
                    text: trimmed(line),
                }
            }
        }
    }

    /// The next line that is not blank.
    pub(crate) fn next(&mut self) -> Option<Line<'a>>
        ensures some { (line : NumberedLine) → result ≡ Some line → lines_at self.old ≡ line ∷ lines_at self.new }
        ensures none { result ≡ None → lines_at self.old ≡ [] }
        ensures less { (line : NumberedLine) → result ≡ Some line → left_at self.new < left_at self.old }
    {
        while !self.ended {
            let line = self.take_line();
            if !line.text().is_empty() {
                return Some(line);
            }
        }
        None
    }
}
