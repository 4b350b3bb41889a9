//! The element sets of a file of two-line sets, one after another.
ghost use Rattle.std.specs.Prelude.{◌≡◌, ◌∷◌, List, Result, Some, Ok, Err, IfOk};
ghost use Rattle.catalogue.specs.declared.entry.Entry.{Entry as EntryRecord};
ghost use Rattle.catalogue.specs.declared.fault.CatFault.{CatFault as CatFaultRecord};
ghost use Rattle.catalogue.specs.Entries.{IsName};
ghost use Rattle.catalogue.specs.Place.{lines_at};
ghost use Rattle.catalogue.specs.Reading.{IsReadOf};
ghost use Rattle.catalogue.specs.Source.{IsNextOf};
ghost use Rattle.catalogue.specs.TwoLineFile as spec;

use crate::entry::Entry;
use crate::fault::{CatFault, SetFault};
use crate::lines::{Line, Lines};
use crate::name::name_of;
use std::alloc::Global;
use tle_read::read_pair;

/// The most bytes of a line with a name.
const MOST_BYTES: usize = 68;

/// Whether a line begins with 1 and a space.
fn begins(line: &Line) -> bool
    ensures { result ≡ spec.begins line.now }
{
    line.text().starts_with(b"1 ")
}

/// Whether a line is line 1 of a set without a name, where this one follows it.
fn is_first(line: &Line, next: &Line) -> bool
    ensures { result ≡ spec.is_first line.now next.now }
{
    begins(line) && !begins(next)
}

/// Whether a line may be a name before a set, where this one follows it.
fn is_name_of(line: &Line, next: &Line) -> bool
    ensures { result ≡ spec.is_name_of line.now next.now }
{
    line.text().len() <= MOST_BYTES && begins(next)
}

/// The set of two lines behind a name.
fn pair(alloc: Global, name: &[u8], line1: &Line, line2: &Line) -> Result<Entry, CatFault>
    ensures value { ¬ (result ≡ Err CatFault.OutOfMemory) → result ≡ spec.pair name.now line1.now line2.now }
    ensures name { IfOk result (λ set. IsName set.name) }
{
    match read_pair(line1.text(), line2.text()) {
        Ok(elements) => match name_of(alloc, name) {
            Ok(name) => Ok(Entry { elements, name }),
            Err(_) => Err(CatFault::OutOfMemory),
        },
        Err(fault) => Err(CatFault::BadSet {
            line: line1.number(),
            fault: SetFault::Tle(fault),
        }),
    }
}

/// The set of two lines behind a name, where what was read of it is the first of the sets.
#[tactic(auto, using(crate::proofs::SetLemmas::read_is))]
fn read_pair_of(alloc: Global, name: &[u8], line1: &Line, line2: &Line) -> Result<Entry, CatFault>
    ensures read { (after : List (Result EntryRecord CatFaultRecord)) → IsReadOf result (spec.pair name.now line1.now line2.now ∷ after) after }
    ensures name { IfOk result (λ set. IsName set.name) }
{
    pair(alloc, name, line1, line2)
}

/// The set that begins with these two lines, and its name.
#[tactic(auto, using(crate::proofs::SetLemmas::sets_of_first, crate::proofs::SetLemmas::sets_of_odd, crate::proofs::SetLemmas::sets_of_last, crate::proofs::SetLemmas::sets_of_named))]
fn set_from(alloc: Global, lines: &mut Lines, line: &Line, next: &Line) -> Result<Entry, CatFault>
    ensures read { IsReadOf result (spec.sets_of (line.now ∷ next.now ∷ lines_at lines.old)) (spec.sets_of (lines_at lines.new)) }
    ensures name { IfOk result (λ set. IsName set.name) }
{
    if is_first(line, next) {
        return read_pair_of(alloc, b"".as_slice(), line, next);
    }
    if !is_name_of(line, next) {
        return Err(CatFault::Odd {
            line: line.number(),
        });
    }
    match lines.next() {
        Some(third) => read_pair_of(alloc, line.text(), next, &third),
        None => Err(CatFault::Odd {
            line: next.number(),
        }),
    }
}

/// The set that begins with this line.
#[tactic(auto, using(crate::proofs::SetLemmas::sets_of_alone))]
fn set_at(alloc: Global, lines: &mut Lines, line: &Line) -> Result<Entry, CatFault>
    ensures read { IsReadOf result (spec.sets_of (line.now ∷ lines_at lines.old)) (spec.sets_of (lines_at lines.new)) }
    ensures name { IfOk result (λ set. IsName set.name) }
{
    match lines.next() {
        Some(next) => set_from(alloc, lines, line, &next),
        None => Err(CatFault::Odd {
            line: line.number(),
        }),
    }
}

/// The next set, if a line is left.
#[tactic(auto, using(crate::proofs::SetLemmas::sets_of_none, crate::proofs::SetLemmas::sets_of_some))]
pub(crate) fn next_pair(alloc: Global, lines: &mut Lines) -> Option<Result<Entry, CatFault>>
    ensures read { IsNextOf result (spec.sets_of (lines_at lines.old)) (spec.sets_of (lines_at lines.new)) }
    ensures name { (set : EntryRecord) → result ≡ Some (Ok set) → IsName set.name }
{
    match lines.next() {
        Some(line) => Some(set_at(alloc, lines, &line)),
        None => None,
    }
}
