//! The pool.
ghost use Rattle.std.specs.Prelude.{◌≡◌, ◌<◌, ◌≤◌, ◌↔◌, ℕ, [], IfOk, IsOk, OnErr, slice_get};
ghost use Rattle.span_pool.specs.Pool.{Holds, IsPushed, IsReleased, KeepsOthers, list_at, list_of, slots_used};

use crate::slot::{NONE, Slot, begin_list, free_list, link_slot, take_slot};
use crate::track::Track;
use sgp4_model::Span;
use std::alloc::{AllocError, Global};
use std::marker::Model;

/// No slot is free.
#[derive(Clone, Copy, Debug, PartialEq, Eq)]
pub struct Full;

/// A region of slots, each for one span, and the lists in it. Its memory is taken once.
#[derive(Debug, Drop)]
pub struct SpanPool {
    slots: Vec<Slot>,
    limit: u32,
    used: u32,
    free: u32,
}

impl Model for SpanPool {
    ghost use Rattle.std.specs.Vec.{vec_capacity};
    ghost use Rattle.span_pool.specs.Record.{PoolRecord};

    ghost Value = { PoolRecord };

    ghost use Rattle.span_pool.specs.Slots.{IsPool, lists_of};

    ghost view = { λ p. record { slots = p.limit; lists = lists_of p.slots.items p.limit } };

    ghost invariant = { λ p. IsPool p.slots.items (vec_capacity p.slots) p.limit p.used p.free };
}

impl SpanPool {
    /// A pool of so many slots. Nothing else takes memory. A slot is written when its first span comes.
    pub fn with_slots(alloc: Global, slots: u32) -> Result<SpanPool, AllocError>
        requires { (1 ≤ slots) × (slots ≤ 1048576) }
        ensures slots { IfOk result (λ pool. pool.slots ≡ slots) }
        ensures empty { IfOk result (λ pool. (head : ℕ) → list_at pool head ≡ []) }
        ensures used { IfOk result (λ pool. slots_used pool ≡ 0) }
    {
        let region = Vec::with_capacity(alloc, slots as usize)?;
        Ok(SpanPool {
            slots: region,
            limit: slots,
            used: 0,
            free: NONE,
        })
    }

    /// An empty track.
    pub fn start(&self) -> Track
        ensures { (result.head ≡ None) × (result.count ≡ 0) }
    {
        Track {
            head: None,
            count: 0,
        }
    }

    /// How many slots the spans of all lists take.
    pub fn used(&self) -> u32
        ensures used { result ≡ slots_used self.now }
        ensures limit { result ≤ self.now.slots }
    {
        self.used
    }

    /// Adds a span at the end of a list. Where no slot is free nothing changes.
    pub fn push(&mut self, track: &mut Track, span: Span) -> Result<(), Full>
        requires { Holds self.old track.old }
        ensures ok { IsOk result ↔ (slots_used self.old < self.old.slots) }
        ensures pushed { IfOk result (λ _. IsPushed self.old self.new track.old track.new span) }
        ensures held { IfOk result (λ _. Holds self.new track.new) }
        ensures others { KeepsOthers self.old self.new track.old.head }
        ensures full { OnErr result ((slots_used self.old ≡ self.old.slots) × (self.new ≡ self.old) × (track.new ≡ track.old)) }
    {
        if self.used == self.limit {
            return Err(Full);
        }
        let slot = Slot {
            from: span.from,
            to: span.to,
            next: NONE,
            last: NONE,
            count: 0,
            mark: span.mark,
        };
        let at = take_slot(&mut self.slots, &mut self.free, slot);
        match track.head {
            None => {
                begin_list(&mut self.slots, at);
                track.head = Some(at);
            }
            Some(head) => link_slot(&mut self.slots, head, at),
        }
        track.count += 1;
        self.used += 1;
        Ok(())
    }

    /// Takes a list out. Its slots are free.
    pub fn release(&mut self, track: Track)
        requires { Holds self.old track }
        ensures released { IsReleased self.old self.new track }
        ensures others { KeepsOthers self.old self.new track.head }
    {
        if let Some(head) = track.head {
            free_list(&mut self.slots, head, self.free);
            self.free = head;
            self.used -= track.count;
        }
    }

    /// The span at place `k` of a list, counted from 0. There is none where `k` is not below the count. It goes from
    /// span to span, from the first one on.
    pub fn get(&self, track: &Track, k: u32) -> Option<Span>
        requires { Holds self.now track.now }
        ensures { result ≡ slice_get (list_of self.now track.now) k }
    {
        if k >= track.count {
            return None;
        }
        let mut at = track.head?;
        let mut left = k;
        while left > 0 {
            at = self.slots[at as usize].next;
            left -= 1;
        }
        let slot = &self.slots[at as usize];
        Some(Span {
            mark: slot.mark,
            from: slot.from,
            to: slot.to,
        })
    }
}
