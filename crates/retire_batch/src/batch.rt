//! The batch of one seat.
ghost use Rattle.std.specs.Prelude.{◌≡◌, ◌+◌, ◌<◌, ◌≤◌, ◌↔◌, [], ◌∷◌, ◌++◌, length, IfOk, IsNone, IfSome};
ghost use Rattle.plain_state.specs.Ejection.{kept, ejected};
ghost use Rattle.retire_batch.specs.Entries.{entry_count};

use crate::split::split_entries;
use out_of_memory::OutOfMemory;
use plain_state::{Announced, Kind, SlotId};
use std::alloc::Global;
use std::collections::VecDeque;
use std::marker::Model;

/// What one seat has retired, and what it owes, each in order. There is room for a fixed number of entries.
#[derive(Drop)]
pub struct Batch {
    retired: Vec<(Kind, SlotId)>,
    owed: VecDeque<(Kind, SlotId)>,
    room: u32,
}

impl Model for Batch {
    ghost use Rattle.std.specs.Prelude.{◌+◌, ◌≤◌, ◌<◌, ◌^◌, vec_len, vec_capacity};
    ghost use Rattle.std.specs.VecDeque.{deque_len, deque_capacity};
    ghost use Rattle.retire_batch.specs.Entries.{Entries};

    ghost Value = { Entries };

    ghost view = { λ batch. record {
      retired = batch.retired.items;
      owed = batch.owed.items;
      room = batch.room;
    } };

    ghost invariant = { λ batch. (vec_len batch.retired + deque_len batch.owed ≤ batch.room)
        × (batch.room < 2 ^ 32)
        × (batch.room ≤ vec_capacity batch.retired)
        × (batch.room ≤ deque_capacity batch.owed) };
}

impl Batch {
    /// An empty batch with room for `r` entries, retired and owed together. It takes memory for twice as many.
    pub fn with_room(alloc: Global, r: u32) -> Result<Batch, OutOfMemory>
        ensures { IfOk result (λ batch. batch ≡ record { retired = []; owed = []; room = r }) }
    {
        let retired = Vec::with_capacity(alloc, r as usize)?;
        let owed = VecDeque::with_capacity(alloc, r as usize)?;
        Ok(Batch {
            retired,
            owed,
            room: r,
        })
    }

    /// Retires a reference: one more deferred decrement, at the end of the list.
    pub fn push(&mut self, kind: Kind, slot: SlotId)
        requires { entry_count self.old < self.old.room }
        ensures { self.new ≡ record self.old { retired = self.old.retired ++ (kind, slot) ∷ [] } }
    {
        self.retired.push_reserved((kind, slot));
    }

    /// Ejects what is no longer announced: of equal retired entries as many stay as `seen` has announcements of
    /// them, the earlier ones, and the others become owed. Both lists keep the order. It asks `seen` once for each
    /// retired entry, and looks for each announced one through the entries that stay.
    pub fn split<S: Announced>(&mut self, seen: &S)
        requires { self.old.owed ≡ [] }
        ensures { let announced = S.announced seen.now in
            self.new ≡ record self.old {
              retired = kept self.old.retired announced;
              owed = ejected self.old.retired announced;
            } }
    {
        split_entries(&mut self.retired, &mut self.owed, seen);
    }

    /// Takes the first owed entry, for its decrement. None exactly where nothing is owed.
    pub fn next_owed(&mut self) -> Option<(Kind, SlotId)>
        ensures none { IsNone result ↔ (self.old.owed ≡ []) }
        ensures first { IfSome result (λ e.
            self.old ≡ record self.new { owed = e ∷ self.new.owed }) }
        ensures unchanged { IsNone result → self.new ≡ self.old }
    {
        self.owed.pop_front()
    }

    /// How many entries are retired.
    pub fn len(&self) -> u32
        ensures count { result ≡ length self.now.retired }
        ensures fits { entry_count self.now ≤ self.now.room }
    {
        self.retired.len() as u32
    }

    /// The retired entries, in order.
    pub fn retired(&self) -> &[(Kind, SlotId)]
        ensures { result.now ≡ self.now.retired }
    {
        self.retired.as_slice()
    }

    /// Takes over all entries of another batch, behind its own: a seat that leaves hands them to the first seat.
    pub fn absorb(&mut self, other: &mut Batch)
        requires { entry_count self.old + entry_count other.old ≤ self.old.room }
        ensures taken { self.new ≡ record self.old {
          retired = self.old.retired ++ other.old.retired;
          owed = self.old.owed ++ other.old.owed;
        } }
        ensures given { other.new ≡ record other.old { retired = []; owed = [] } }
    {
        // There is room for both, so neither of these takes memory.
        let _ = self.retired.append(&mut other.retired);
        let _ = self.owed.append(&mut other.owed);
    }
}
