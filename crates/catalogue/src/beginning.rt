//! Where the next message of a text begins.
ghost use Rattle.std.specs.Prelude.{◌≡◌, ℕ, ◌+◌, ◌≤◌, length, IfSome, None};
ghost use Rattle.omm_kvn.specs.Lines.{split};
ghost use Rattle.catalogue.specs.Beginning.{IsBeginning, IsLast};
ghost use Rattle.catalogue.specs.MessagePlace.{first_of};
ghost use Rattle.catalogue.specs.Place.{most_bytes};

use crate::cut::{cut, line_end};
use omm_kvn::begins_message;

/// Where the next message begins.
#[derive(Clone, Copy)]
pub(crate) struct Beginning {
    /// The number of the byte before its first line, a line feed, where the text's first byte is byte 0.
    pub(crate) end: usize,
    /// The number of its first line in the file.
    pub(crate) number: u32,
}

/// The first line of a text.
#[tactic(auto, using(crate::proofs::MessageLemmas::first_some, crate::proofs::MessageLemmas::first_none))]
fn first_line(text: &[u8]) -> &[u8]
    ensures value { result.now ≡ first_of (split text.now) }
    ensures len { length result.now ≤ length text.now }
{
    match line_end(text) {
        Some(end) => cut(text, end).0,
        None => text,
    }
}

/// Where the next message begins behind the first line of a text, which has this number in the file.
pub(crate) fn next_beginning(number: u32, text: &[u8]) -> Option<Beginning>
    requires number { 1 ≤ number }
    requires text { number + length text.now ≤ most_bytes + 1 }
    ensures some { IfSome result (λ next. IsBeginning number text.now next) }
    ensures none { result ≡ None → IsLast number text.now }
{
    let mut at = 0;
    let mut next = number;
    let mut rest = text;
    while let Some(end) = line_end(rest) {
        let behind = cut(rest, end).1;
        next += 1;
        if begins_message(first_line(behind)) {
            return Some(Beginning {
                end: at + end,
                number: next,
            });
        }
        at += end + 1;
        rest = behind;
    }
    None
}
