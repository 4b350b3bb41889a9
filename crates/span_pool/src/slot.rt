//! The slots, and the chains that they make.
ghost use Rattle.std.specs.Prelude.{◌≡◌, ◌≢◌, ◌+◌, ◌<◌, ◌≤◌, ℕ, length};
ghost use Rattle.std.specs.Vec.{vec_capacity};
ghost use Rattle.span_pool.specs.Slots.{IsBegun, IsFreed, IsLinked, IsTaken, no_link, slot_at};

use sgp4_model::{Mark, Span};

/// The link of the last slot of a chain.
pub(crate) const NONE: u32 = u32::MAX;

/// A span, the slot after it in its chain, and, at the first slot of a list, its last slot and how many it has. A slot
/// that begins no list counts none.
#[derive(Clone, Copy, Debug)]
pub(crate) struct Slot {
    pub(crate) from: u64,
    pub(crate) to: u64,
    pub(crate) next: u32,
    pub(crate) last: u32,
    pub(crate) count: u32,
    pub(crate) mark: Mark,
}

/// Puts a slot in place of the first free one, or behind all others where none is free. Answers where it is.
pub(crate) fn take_slot(slots: &mut Vec<Slot>, free: &mut u32, slot: Slot) -> u32
    requires inside { free.old ≢ no_link → free.old < length slots.old.items }
    requires room { free.old ≡ no_link → length slots.old.items < vec_capacity slots.old }
    requires limit { length slots.old.items ≤ 1048576 }
    ensures taken { IsTaken slots.old.items slots.new.items free.old free.new slot result }
    ensures capacity { vec_capacity slots.old ≤ vec_capacity slots.new }
{
    let at = *free;
    if at != NONE {
        *free = slots[at as usize].next;
        slots[at as usize] = slot;
        return at;
    }
    let at = slots.len() as u32;
    match slots.push(slot) {
        Ok(()) => at,
        Err(_) => unreachable!(),
    }
}

/// Begins a list of one slot.
pub(crate) fn begin_list(slots: &mut Vec<Slot>, at: u32)
    requires { at < length slots.old.items }
    ensures begun { IsBegun slots.old.items slots.new.items at }
    ensures capacity { vec_capacity slots.new ≡ vec_capacity slots.old }
{
    slots[at as usize].last = at;
    slots[at as usize].count = 1;
}

/// Links a slot behind the last one of the list that begins at `head`.
pub(crate) fn link_slot(slots: &mut Vec<Slot>, head: u32, at: u32)
    requires head { head < length slots.old.items }
    requires last { (slot_at slots.old.items head).last < length slots.old.items }
    requires count { (slot_at slots.old.items head).count < 1048576 }
    ensures linked { IsLinked slots.old.items slots.new.items head at }
    ensures capacity { vec_capacity slots.new ≡ vec_capacity slots.old }
{
    let last = slots[head as usize].last;
    slots[last as usize].next = at;
    slots[head as usize].last = at;
    slots[head as usize].count += 1;
}

/// Puts the list that begins at `head` before the free chain.
pub(crate) fn free_list(slots: &mut Vec<Slot>, head: u32, free: u32)
    requires head { head < length slots.old.items }
    requires last { (slot_at slots.old.items head).last < length slots.old.items }
    ensures freed { IsFreed slots.old.items slots.new.items head free }
    ensures capacity { vec_capacity slots.new ≡ vec_capacity slots.old }
{
    let last = slots[head as usize].last;
    slots[last as usize].next = free;
    slots[head as usize].count = 0;
}
