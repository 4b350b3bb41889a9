//! The satellites of a catalogue, in order.
ghost use Rattle.std.specs.Prelude.{◌≡◌, ◌<◌, ◌++◌, [], ◌∷◌, ◌||◌, not, true, false, length, slice_get, Some, Ok, OnOk, OnErr, Bool};

use crate::entry::Entry;
use crate::nearer::is_nearer;
use elements::{Elements, Instant, OutOfMemory, Text};
use indexmap::IndexMap;
use std::alloc::Global;
use std::marker::Model;

/// The most satellites of a catalogue.
pub(crate) const MOST_ENTRIES: usize = 16_384;

/// At most 16,384 satellites, in the order in which they were added. They keep their own memory.
#[derive(Drop)]
pub struct Catalogue {
    by_number: IndexMap<u32, Entry>,
}

impl Model for Catalogue {
    ghost use Rattle.std.specs.Prelude.{◌≡◌, List};
    ghost use Rattle.indexmap.specs.IndexMap.{keys, values};
    ghost use Rattle.catalogue.specs.declared.entry.Entry.{Entry};
    ghost use Rattle.catalogue.specs.Entries.{IsCatalogue, numbers};

    ghost Value = { List Entry };

    ghost view = { λ catalogue. values catalogue.by_number };

    ghost invariant = { λ catalogue. (numbers (values catalogue.by_number) ≡ keys catalogue.by_number) × IsCatalogue (values catalogue.by_number) };
}

impl Catalogue {
    ghost use Rattle.std.specs.Prelude.{option_copied, is_some, IfSome};
    ghost use Rattle.catalogue.specs.Entries.{IsCatalogue, IsName, entry_with, has_number, is_full, most_entries};
    ghost use Rattle.catalogue.specs.Keeping.{is_wanted, with_entry, with_set};

    /// The catalogue of no satellite.
    pub fn empty(alloc: Global) -> Catalogue
        ensures { result ≡ [] }
    {
        Catalogue {
            by_number: IndexMap::new(alloc),
        }
    }

    /// Adds a satellite at the end, and answers whether it did: not where its number is there already, or the
    /// catalogue is full.
    pub fn add(&mut self, elements: Elements, name: Text) -> Result<bool, OutOfMemory>
        requires { IsName name }
        ensures added { (b : Bool) → result ≡ Ok b → b ≡ not (has_number elements.number self.old || is_full self.old) }
        ensures appended { result ≡ Ok true → self.new ≡ self.old ++ record { elements = elements; name = name } ∷ [] }
        ensures kept { ¬ (result ≡ Ok true) → self.new ≡ self.old }
    {
        if self.has(elements.number()) || self.len() as usize >= MOST_ENTRIES {
            return Ok(false);
        }
        match self.push(Entry { elements, name }) {
            Ok(()) => Ok(true),
            Err(_) => Err(OutOfMemory),
        }
    }

    /// Whether a satellite has the number.
    #[tactic(auto, using(crate::proofs::MapLemmas::lookup_is))]
    fn has(&self, number: u32) -> bool
        ensures { result ≡ has_number number self.now }
    {
        self.by_number.contains_key(&number)
    }

    /// Adds a satellite at the end.
    fn push(&mut self, entry: Entry) -> Result<(), OutOfMemory>
        requires name { IsName entry.name }
        requires absent { has_number entry.elements.number self.old ≡ false }
        requires room { length self.old < most_entries }
        ensures ok { OnOk result (self.new ≡ self.old ++ entry ∷ []) }
        ensures err { OnErr result (self.new ≡ self.old) }
    {
        match self.by_number.insert(entry.elements.number(), entry) {
            Ok(_) => Ok(()),
            Err(_) => Err(OutOfMemory),
        }
    }

    /// Keeps a set, where its number is new or its epoch is nearer to the start than that of the one that is kept.
    #[tactic(auto, using(crate::proofs::KeepingLemmas::wanted_is, crate::proofs::KeepingLemmas::unwanted_is))]
    pub(crate) fn keep(&mut self, set: Entry, start: Instant) -> Result<(), OutOfMemory>
        requires name { IsName set.name }
        requires room { length self.old < most_entries }
        ensures { OnOk result (self.new ≡ with_set start set self.old) }
    {
        if self.is_wanted(&set, start) {
            self.put(set)
        } else {
            Ok(())
        }
    }

    /// Whether a set is to be kept.
    fn is_wanted(&self, set: &Entry, start: Instant) -> bool
        ensures { result ≡ is_wanted start set.now (entry_with set.now.elements.number self.now) }
    {
        match self.find(set.elements.number()) {
            Some(kept) => is_nearer(start, set, kept),
            None => true,
        }
    }

    /// Puts a set in the place of the one of its number, or at the end.
    fn put(&mut self, set: Entry) -> Result<(), OutOfMemory>
        requires name { IsName set.name }
        requires room { length self.old < most_entries }
        ensures { OnOk result (self.new ≡ with_entry set self.old) }
    {
        match self.by_number.insert(set.elements.number(), set) {
            Ok(_) => Ok(()),
            Err(_) => Err(OutOfMemory),
        }
    }

    /// How many satellites there are.
    pub fn len(&self) -> u32
        ensures value { result ≡ length self.now }
        ensures catalogue { IsCatalogue self.now }
    {
        self.by_number.len() as u32
    }

    /// A satellite, counted from 0.
    pub fn entry(&self, k: u32) -> &Entry
        requires { k < length self.now }
        ensures value { Some result.now ≡ slice_get self.now k }
        ensures catalogue { IsCatalogue self.now }
    {
        &self.by_number[k as usize]
    }

    /// The satellite with this catalogue number, if there is one.
    #[tactic(auto, using(crate::proofs::MapLemmas::lookup_entry))]
    pub fn find(&self, number: u32) -> Option<&Entry>
        ensures value { option_copied result ≡ entry_with number self.now }
        ensures found { is_some result ≡ has_number number self.now }
        ensures number { IfSome result (λ entry. entry.now.elements.number ≡ number) }
        ensures catalogue { IsCatalogue self.now }
        ensures name { IfSome result (λ entry. IsName entry.now.name) }
    {
        self.by_number.get(&number)
    }
}
