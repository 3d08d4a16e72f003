//! The slots that one seat has ended and not yet destroyed.
ghost use Rattle.std.specs.Prelude.{◌≡◌, ◌+◌, ◌<◌, ◌≤◌, ◌↔◌, [], ◌∷◌, ◌++◌, length, IfOk, IsNone, IfSome, slice_index_or};
ghost use Rattle.std.specs.VecDeque.{deque_capacity, deque_len};
ghost use Rattle.core_functions.specs.core_events.Views.{without};

use core_functions::OutOfMemory;
use epoch_core::SlotId;
use std::alloc::Global;
use std::collections::VecDeque;
use std::marker::Model;

/// The slots that one seat has ended and not yet destroyed, in order. There is room for a fixed number of them.
#[derive(Drop)]
pub struct Ended {
    slots: VecDeque<SlotId>,
    room: u32,
}

impl Model for Ended {
    ghost use Rattle.std.specs.Prelude.{◌≤◌};
    ghost use Rattle.std.specs.VecDeque.{deque_len, deque_capacity};
    ghost use Rattle.epoch_parts.specs.Ended.{EndedSlots};

    ghost Value = { EndedSlots };

    ghost view = { λ ended. record { slots = ended.slots.items; room = ended.room } };

    ghost invariant = { λ ended. (deque_len ended.slots ≤ ended.room)
        × (ended.room ≤ deque_capacity ended.slots) };
}

impl Ended {
    /// No slot, with room for so many.
    pub fn with_room(alloc: Global, room: u32) -> Result<Ended, OutOfMemory>
        ensures { IfOk result (λ ended. ended ≡ record { slots = []; room = room }) }
    {
        let slots = VecDeque::with_capacity(alloc, room as usize)?;
        Ok(Ended { slots, room })
    }

    /// A slot was ended.
    pub fn push(&mut self, slot: SlotId)
        requires { length self.old.slots < self.old.room }
        ensures { self.new ≡ record self.old { slots = self.old.slots ++ slot ∷ [] } }
    {
        self.slots.push_back_reserved(slot);
    }

    /// The slot that was ended first. None exactly where there is none.
    pub fn first(&self) -> Option<SlotId>
        ensures none { IsNone result ↔ (self.now.slots ≡ []) }
        ensures first { IfSome result (λ slot. slot ≡ slice_index_or self.now.slots 0 slot) }
    {
        self.slots.front().copied()
    }

    /// How many slots there are.
    pub fn len(&self) -> u64
        ensures { result ≡ length self.now.slots }
    {
        self.slots.len() as u64
    }

    /// A slot was freed: its first entry goes, if it has one. At the front that is one step.
    pub fn take(&mut self, slot: SlotId)
        ensures { self.new ≡ record self.old { slots = without slot self.old.slots } }
    {
        take_first(&mut self.slots, slot);
    }

    /// Takes over the slots of another seat, behind its own: a seat that leaves hands them to seat 0.
    pub fn absorb(&mut self, other: &mut Ended)
        requires { length self.old.slots + length other.old.slots ≤ self.old.room }
        ensures taken { self.new ≡ record self.old { slots = self.old.slots ++ other.old.slots } }
        ensures given { other.new ≡ record other.old { slots = [] } }
    {
        // There is room for both, so this takes no memory.
        let _ = self.slots.append(&mut other.slots);
    }
}
/// Takes the first entry of the slot out of a list, if it is there. At its front that is one step.
#[tactic(auto, using(core_functions::proofs::Slots::without_at, core_functions::proofs::Slots::without_none))]
fn take_first(list: &mut VecDeque<SlotId>, slot: SlotId)
    ensures taken { list.new.items ≡ without slot list.old.items }
    ensures fewer { deque_len list.new ≤ deque_len list.old }
    ensures capacity { deque_capacity list.new ≡ deque_capacity list.old }
{
    for i in 0..list.len() {
        if list[i].0 == slot.0 {
            let _ = list.remove(i);
            return;
        }
    }
}
