//! The element set of a message.
ghost use Rattle.std.specs.Prelude.{◌≡◌, Err, IfOk};
ghost use Rattle.omm_kvn.specs.Places.{bytes_at};
ghost use Rattle.catalogue.specs.declared.fault.CatFault.{CatFault as CatFaultRecord};
ghost use Rattle.catalogue.specs.Entries.{IsName};
ghost use Rattle.catalogue.specs.MessageFile as spec;

use crate::entry::Entry;
use crate::fault::{CatFault, SetFault};
use crate::messages::MessageText;
use crate::name::name_of;
use omm_kvn::read_message;
use std::alloc::Global;

/// The bytes of a text from one byte to before another, as far as the text has them.
fn part(text: &[u8], from: u32, to: u32) -> &[u8]
    ensures { result.now ≡ bytes_at text.now (record { from = from; to = to }) }
{
    let count = to.saturating_sub(from) as usize;
    match text.get(from as usize..) {
        Some(rest) => match rest.get(..count) {
            Some(bytes) => bytes,
            None => rest,
        },
        None => &[],
    }
}

/// The set of a message.
#[tactic(auto, unfolding(crate::specs::MessageFile::message_set))]
pub(crate) fn message_set(alloc: Global, message: &MessageText) -> Result<Entry, CatFault>
    ensures value { ¬ (result ≡ Err CatFault.OutOfMemory) → result ≡ spec.message_set message.now }
    ensures name { IfOk result (λ set. IsName set.name) }
{
    let text = message.text();
    match read_message(text) {
        Ok(read) => match name_of(alloc, part(text, read.name_from, read.name_to)) {
            Ok(name) => Ok(Entry {
                elements: read.elements,
                name,
            }),
            Err(_) => Err(CatFault::OutOfMemory),
        },
        Err(fault) => Err(CatFault::BadSet {
            line: message.number(),
            fault: SetFault::Omm(fault),
        }),
    }
}
