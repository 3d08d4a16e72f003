//! The pending entries of one seat.
ghost use Rattle.std.specs.Prelude.{◌≡◌, ◌+◌, ◌-◌, ◌^◌, ◌<◌, ◌≤◌, ◌↔◌, [], ◌∷◌, ◌++◌, All, IfOk, IfSome, IsNone, OnOk, length, map, min};
ghost use Rattle.epoch_core.specs.Steps.{dated_times, without_dated};
ghost use Rattle.epoch_parts.specs.Pending.{IsDueAt, deferred_of, entries, spare};

use crate::dated_queue::DatedQueue;
use core_events::Kind;
use core_functions::OutOfMemory;
use epoch_core::{Dated, SlotId};
use std::alloc::Global;
use std::marker::Model;

/// The references that a seat has yet to give up, each with its date: the seat's own list, and at seat 0 those of the
/// seats that left. There is room for a fixed number of lists, and each grows as it is asked for.
#[derive(Drop)]
pub struct Pending {
    queues: Vec<DatedQueue>,
}

impl Model for Pending {
    ghost use Rattle.std.specs.Prelude.{◌<◌};
    ghost use Rattle.std.specs.Vec.{vec_capacity, vec_len};
    ghost use Rattle.epoch_parts.specs.Pending.{Queues};

    ghost Value = { Queues };

    ghost view = { λ pending. record {
      queues = pending.queues.items;
      room = vec_capacity pending.queues;
    } };

    ghost invariant = { λ pending. 0 < vec_len pending.queues };
}

impl Pending {
    /// No entry, with room for so many lists.
    pub fn with_room(alloc: Global, lists: u32) -> Result<Pending, OutOfMemory>
        requires { 0 < lists }
        ensures entries { IfOk result (λ pending. entries pending.queues ≡ []) }
        ensures one { IfOk result (λ pending. length pending.queues ≡ 1) }
        ensures room { IfOk result (λ pending. pending.room ≡ lists) }
    {
        let mut queues = Vec::with_capacity(alloc, lists as usize)?;
        queues.push_reserved(DatedQueue::new(alloc));
        Ok(Pending { queues })
    }

    /// Room for so many entries more.
    pub fn reserve(&mut self, more: usize) -> Result<(), OutOfMemory>
        ensures entries { entries self.new.queues ≡ entries self.old.queues }
        ensures lists { length self.new.queues ≡ length self.old.queues }
        ensures room { self.new.room ≡ self.old.room }
        ensures spare { OnOk result (more ≤ spare self.new.queues) }
    {
        let last = self.queues.len() - 1;
        self.queues[last].reserve(more)
    }

    /// One entry more, which no other is dated later than.
    pub fn push(&mut self, entry: Dated)
        requires room { 0 < spare self.old.queues }
        requires order { All (λ x. x.date ≤ entry.date) (entries self.old.queues) }
        ensures entries { entries self.new.queues ≡ entries self.old.queues ++ entry ∷ [] }
        ensures lists { length self.new.queues ≡ length self.old.queues }
        ensures room { self.new.room ≡ self.old.room }
        ensures spare { spare self.new.queues + 1 ≡ spare self.old.queues }
    {
        let last = self.queues.len() - 1;
        self.queues[last].push(entry);
    }

    /// Takes the first entry that is due to a seat that knows this epoch. None exactly where none is. It looks at one
    /// entry of each list.
    pub fn take_due(&mut self, known: u64) -> Option<Dated>
        ensures due { IfSome result (IsDueAt known) }
        ensures among { IfSome result (λ entry. 0 < dated_times entry (entries self.old.queues)) }
        ensures taken { IfSome result (λ entry.
            entries self.new.queues ≡ without_dated entry (entries self.old.queues)) }
        ensures none { IsNone result → All (λ x. IsDueAt known x → ⊥) (entries self.old.queues) }
        ensures same { IsNone result → self.new ≡ self.old }
        ensures lists { length self.new.queues ≡ length self.old.queues }
        ensures room { self.new.room ≡ self.old.room }
        ensures spare { spare self.old.queues ≤ spare self.new.queues }
    {
        for list in 0..self.queues.len() {
            if let Some(entry) = self.queues[list].take_due(known) {
                return Some(entry);
            }
        }
        None
    }

    /// Takes over the lists of another seat, behind its own.
    pub fn absorb(&mut self, other: Pending)
        requires { length self.old.queues + length other.queues ≤ self.old.room }
        ensures entries { entries self.new.queues
            ≡ entries self.old.queues ++ entries other.queues }
        ensures lists { length self.new.queues ≡ length self.old.queues + length other.queues }
        ensures room { self.old.room ≤ self.new.room }
    {
        let Pending { mut queues } = other;
        // There is room for all, so this takes no memory.
        let _ = self.queues.append(&mut queues);
    }

    /// How many entries there are, where they are fewer than 2^64, in a step for each list.
    pub fn len(&self) -> u64
        ensures { result ≡ min (length (entries self.now.queues)) (2 ^ 64 - 1) }
    {
        let mut count: u64 = 0;
        for list in 0..self.queues.len() {
            count = count.saturating_add(self.queues[list].len() as u64);
        }
        count
    }

    /// Joins the entries to a list, in order and without their dates.
    pub fn push_deferred(&self, deferred: &mut Vec<(Kind, SlotId)>) -> Result<(), OutOfMemory>
        ensures { OnOk result (deferred.new.items
            ≡ deferred.old.items ++ map deferred_of (entries self.now.queues)) }
    {
        for list in 0..self.queues.len() {
            self.queues[list].push_deferred(deferred)?;
        }
        Ok(())
    }
}
