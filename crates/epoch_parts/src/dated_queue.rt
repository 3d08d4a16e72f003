//! Entries in the order of their dates.
ghost use Rattle.std.specs.Prelude.{◌≡◌, ◌+◌, ◌<◌, ◌≤◌, [], ◌∷◌, ◌++◌, All, IfSome, IsNone, OnOk, length, map};
ghost use Rattle.epoch_parts.specs.Pending.{IsDueAt, deferred_of};

use core_events::Kind;
use core_functions::OutOfMemory;
use epoch_core::{Dated, SlotId};
use std::alloc::Global;
use std::collections::VecDeque;
use std::marker::Model;

/// Pending entries, none of which is dated later than one behind it. So those that are due stand in front.
#[derive(Drop)]
pub(crate) struct DatedQueue {
    entries: VecDeque<Dated>,
}

impl Model for DatedQueue {
    ghost use Rattle.std.specs.Prelude.{◌-◌};
    ghost use Rattle.std.specs.VecDeque.{deque_capacity, deque_len};
    ghost use Rattle.epoch_parts.specs.Pending.{IsInOrder, Queue};

    ghost Value = { Queue };

    ghost view = { λ queue. record {
      entries = queue.entries.items;
      spare = deque_capacity queue.entries - deque_len queue.entries;
    } };

    ghost invariant = { λ queue. IsInOrder queue.entries.items };
}

impl DatedQueue {
    /// No entry.
    pub(crate) fn new(alloc: Global) -> DatedQueue
        ensures { result.entries ≡ [] }
    {
        DatedQueue {
            entries: VecDeque::new(alloc),
        }
    }

    /// Room for so many entries more.
    pub(crate) fn reserve(&mut self, more: usize) -> Result<(), OutOfMemory>
        ensures entries { self.new.entries ≡ self.old.entries }
        ensures room { OnOk result (more ≤ self.new.spare) }
    {
        Ok(self.entries.reserve(more)?)
    }

    /// One entry more, which no other is dated later than.
    pub(crate) fn push(&mut self, entry: Dated)
        requires room { 0 < self.old.spare }
        requires order { All (λ x. x.date ≤ entry.date) self.old.entries }
        ensures entries { self.new.entries ≡ self.old.entries ++ entry ∷ [] }
        ensures room { self.new.spare + 1 ≡ self.old.spare }
    {
        self.entries.push_back_reserved(entry);
    }

    /// Takes the first entry, where it is due to a seat that knows this epoch. Else none is.
    pub(crate) fn take_due(&mut self, known: u64) -> Option<Dated>
        ensures due { IfSome result (IsDueAt known) }
        ensures first { IfSome result (λ entry. self.old.entries ≡ entry ∷ self.new.entries) }
        ensures none { IsNone result → All (λ x. IsDueAt known x → ⊥) self.old.entries }
        ensures same { IsNone result → self.new ≡ self.old }
        ensures room { self.old.spare ≤ self.new.spare }
    {
        let first = self.entries.front()?;
        if known < 2 || first.date > known - 2 {
            return None;
        }
        self.entries.pop_front()
    }

    /// How many entries there are.
    pub(crate) fn len(&self) -> usize
        ensures { result ≡ length self.now.entries }
    {
        self.entries.len()
    }

    /// Joins the entries to a list, in order and without their dates.
    pub(crate) fn push_deferred(
        &self,
        deferred: &mut Vec<(Kind, SlotId)>,
    ) -> Result<(), OutOfMemory>
        ensures { OnOk result (deferred.new.items
            ≡ deferred.old.items ++ map deferred_of self.now.entries) }
    {
        for i in 0..self.entries.len() {
            deferred.push((Kind::Strong, self.entries[i].slot))?;
        }
        Ok(())
    }
}
