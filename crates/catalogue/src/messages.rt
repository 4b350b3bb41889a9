//! The messages of a file, one after another.
use crate::beginning::next_beginning;
use crate::cut::{cut, line_end, trimmed};
use std::marker::Model;

/// The text of a message, and the number of its first line in the file.
#[derive(Drop)]
pub(crate) struct MessageText<'a> {
    number: u32,
    text: &'a [u8],
}

impl<'a> Model for MessageText<'a> {
    ghost use Rattle.std.specs.Prelude.{length, ◌≤◌};
    ghost use Rattle.catalogue.specs.MessageFile.{NumberedText};
    ghost use Rattle.catalogue.specs.Place.{most_bytes};

    ghost Value = { NumberedText };

    ghost view = { λ a. record { number = a.number; text = a.text.now } };

    ghost invariant = { λ a. length a.text.now ≤ most_bytes };
}

impl<'a> MessageText<'a> {
    ghost use Rattle.std.specs.Prelude.{◌≡◌, ◌≤◌, length};
    ghost use Rattle.catalogue.specs.Place.{most_bytes};

    /// The number of its first line, counted from 1.
    pub(crate) fn number(&self) -> u32
        ensures { result ≡ self.now.number }
    {
        self.number
    }

    /// Its bytes.
    pub(crate) fn text(&self) -> &'a [u8]
        ensures value { result.now ≡ self.now.text }
        ensures len { length self.now.text ≤ most_bytes }
    {
        self.text
    }
}

/// A place between the messages of a file.
#[derive(Drop)]
pub(crate) struct Messages<'a> {
    number: u32,
    ended: bool,
    rest: &'a [u8],
}

impl<'a> Model for Messages<'a> {
    ghost use Rattle.catalogue.specs.Place.{PlaceRecord, IsPlace};

    ghost Value = { PlaceRecord };

    ghost view = { λ a. record { number = a.number; ended = a.ended; rest = a.rest.now } };

    ghost invariant = { λ a. IsPlace (record { number = a.number; ended = a.ended; rest = a.rest.now }) };
}

impl<'a> Messages<'a> {
    ghost use Rattle.std.specs.Prelude.{◌≡◌, ◌≤◌, ◌∷◌, [], length, false, Some, None};
    ghost use Rattle.catalogue.specs.MessageFile.{NumberedText, messages};
    ghost use Rattle.catalogue.specs.MessagePlace.{messages_at};
    ghost use Rattle.catalogue.specs.Place.{most_bytes};

    /// The place before the first message of a file, which begins at the first line that is not blank.
    pub(crate) fn of(bytes: &'a [u8]) -> Messages<'a>
        requires { length bytes.now ≤ most_bytes }
        ensures { messages_at result ≡ messages bytes.now }
    {
        let mut number = 1;
        let mut rest = bytes;
        while let Some(end) = line_end(rest) {
            let (line, behind) = cut(rest, end);
            if !trimmed(line).is_empty() {
                return Messages {
                    number,
                    ended: false,
                    rest,
                };
            }
            number += 1;
            rest = behind;
        }
        Messages {
            number,
            ended: trimmed(rest).is_empty(),
            rest,
        }
    }

    /// The message that begins here.
    fn take_message(&mut self) -> MessageText<'a>
        requires { self.old.ended ≡ false }
        ensures { messages_at self.old ≡ result ∷ messages_at self.new }
    {
        let number = self.number;
        match next_beginning(number, self.rest) {
            Some(next) => {
                let (text, rest) = cut(self.rest, next.end);
                self.number = next.number;
                self.rest = rest;
                MessageText { number, text }
            }
            None => {
                let text = self.rest;
                self.ended = true;
                self.rest = &[];
                MessageText { number, text }
            }
        }
    }

    /// The next message, if there is one.
    pub(crate) fn next(&mut self) -> Option<MessageText<'a>>
        ensures some { (text : NumberedText) → result ≡ Some text → messages_at self.old ≡ text ∷ messages_at self.new }
        ensures none { result ≡ None → messages_at self.old ≡ [] }
    {
        if self.ended {
            None
        } else {
            Some(self.take_message())
        }
    }
}
