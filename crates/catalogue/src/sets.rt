//! The element sets of a file, one after another.
ghost use Rattle.std.specs.Prelude.{◌≡◌, Some, Ok};
ghost use Rattle.catalogue.specs.declared.entry.Entry.{Entry as EntryRecord};
ghost use Rattle.catalogue.specs.Entries.{IsName};
ghost use Rattle.catalogue.specs.Source.{sets_left, IsNextOf};

use crate::entry::Entry;
use crate::fault::CatFault;
use crate::lines::Lines;
use crate::message::message_set;
use crate::messages::Messages;
use crate::two_line::next_pair;
use std::alloc::Global;

/// A place between the element sets of a file.
#[derive(Drop)]
pub(crate) enum Sets<'a> {
    /// Of a file of two-line sets.
    Pairs(Lines<'a>),
    /// Of a file of messages.
    Messages(Messages<'a>),
}

/// The next set of a file, if there is one.
pub(crate) fn next_set(alloc: Global, sets: &mut Sets) -> Option<Result<Entry, CatFault>>
    ensures read { IsNextOf result (sets_left sets.old) (sets_left sets.new) }
    ensures name { (set : EntryRecord) → result ≡ Some (Ok set) → IsName set.name }
{
    match sets {
        Sets::Pairs(lines) => next_pair(alloc, lines),
        Sets::Messages(messages) => match messages.next() {
            Some(message) => Some(message_set(alloc, &message)),
            None => None,
        },
    }
}
