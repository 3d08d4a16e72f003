//! The dying slots of one seat.
ghost use Rattle.std.specs.Prelude.{◌≡◌, ◌+◌, ◌<◌, ◌≤◌, ◌↔◌, [], ◌∷◌, ◌++◌, length, not, IfOk, IsNone, IfSome, slice_index_or};
ghost use Rattle.std.specs.List.{filter};
ghost use Rattle.std.specs.VecDeque.{deque_capacity, deque_len};
ghost use Rattle.core_functions.specs.core_events.Views.{without};
ghost use Rattle.dying_slots.specs.Dying.{is_free, ripening};

use core_functions::{Announced, Kind, OutOfMemory, SlotId};
use std::alloc::Global;
use std::collections::VecDeque;
use std::marker::Model;

/// The slots that one seat has ended and not yet destroyed, in order: those that wait to become ripe, and those that
/// are ripe. There is room for a fixed number of each.
#[derive(Drop)]
pub struct Dying {
    waiting: VecDeque<SlotId>,
    ripe: VecDeque<SlotId>,
    room: u32,
}

impl Model for Dying {
    ghost use Rattle.std.specs.Prelude.{◌≤◌};
    ghost use Rattle.std.specs.VecDeque.{deque_len, deque_capacity};
    ghost use Rattle.dying_slots.specs.Dying.{DyingSlots};

    ghost Value = { DyingSlots };

    ghost view = { λ dying. record {
      waiting = dying.waiting.items;
      ripe = dying.ripe.items;
      room = dying.room;
    } };

    ghost invariant = { λ dying. (deque_len dying.waiting ≤ dying.room)
        × (deque_len dying.ripe ≤ dying.room)
        × (dying.room ≤ deque_capacity dying.waiting)
        × (dying.room ≤ deque_capacity dying.ripe) };
}

impl Dying {
    /// No slot, with room for `room` that wait and as many ripe ones.
    pub fn with_room(alloc: Global, room: u32) -> Result<Dying, OutOfMemory>
        ensures { IfOk result (λ dying. dying
            ≡ record { waiting = []; ripe = []; room = room }) }
    {
        let waiting = VecDeque::with_capacity(alloc, room as usize)?;
        let ripe = VecDeque::with_capacity(alloc, room as usize)?;
        Ok(Dying {
            waiting,
            ripe,
            room,
        })
    }

    /// A slot was ended, and waits.
    pub fn end(&mut self, slot: SlotId)
        requires { length self.old.waiting < self.old.room }
        ensures { self.new ≡ record self.old { waiting = self.old.waiting ++ slot ∷ [] } }
    {
        self.waiting.push_back_reserved(slot);
    }

    /// Those of the waiting slots that nothing announces for disposal become ripe, behind the others that are.
    pub fn ripen<S: Announced>(&mut self, seen: &S)
        requires { length (ripening (S.announced seen.now) self.old).ripe ≤ self.old.room }
        ensures { self.new ≡ ripening (S.announced seen.now) self.old }
    {
        ripen_all(&mut self.waiting, &mut self.ripe, seen);
    }

    /// A ripe slot was destroyed: its first entry goes, if it has one.
    pub fn take(&mut self, slot: SlotId)
        ensures { self.new ≡ record self.old { ripe = without slot self.old.ripe } }
    {
        take_first(&mut self.ripe, slot);
    }

    /// The first ripe slot. None exactly where none is ripe.
    pub fn first_ripe(&self) -> Option<SlotId>
        ensures none { IsNone result ↔ (self.now.ripe ≡ []) }
        ensures first { IfSome result (λ slot. slot ≡ slice_index_or self.now.ripe 0 slot) }
    {
        self.ripe.front().copied()
    }

    /// The first slot that waits. None exactly where none waits.
    pub fn first_waiting(&self) -> Option<SlotId>
        ensures none { IsNone result ↔ (self.now.waiting ≡ []) }
        ensures first { IfSome result (λ slot. slot ≡ slice_index_or self.now.waiting 0 slot) }
    {
        self.waiting.front().copied()
    }

    /// Takes over the slots of another seat, behind its own: a seat that leaves hands them to the first seat.
    pub fn absorb(&mut self, other: &mut Dying)
        requires waiting { length self.old.waiting + length other.old.waiting ≤ self.old.room }
        requires ripe { length self.old.ripe + length other.old.ripe ≤ self.old.room }
        ensures taken { self.new ≡ record self.old {
          waiting = self.old.waiting ++ other.old.waiting;
          ripe = self.old.ripe ++ other.old.ripe;
        } }
        ensures given { other.new ≡ record other.old { waiting = []; ripe = [] } }
    {
        // There is room for both, so neither of these takes memory.
        let _ = self.waiting.append(&mut other.waiting);
        let _ = self.ripe.append(&mut other.ripe);
    }
}

/// Goes once over the waiting slots: each becomes ripe, or waits on.
fn ripen_all<S: Announced>(waiting: &mut VecDeque<SlotId>, ripe: &mut VecDeque<SlotId>, seen: &S)
    requires room { length (ripe.old.items ++ filter (is_free (S.announced seen.now))
        waiting.old.items) ≤ deque_capacity ripe.old }
    ensures waiting { waiting.new.items
        ≡ filter (λ s. not (is_free (S.announced seen.now) s)) waiting.old.items }
    ensures ripe { ripe.new.items
        ≡ ripe.old.items ++ filter (is_free (S.announced seen.now)) waiting.old.items }
    ensures fewer { deque_len waiting.new ≤ deque_len waiting.old }
    ensures waiting_room { deque_capacity waiting.new ≡ deque_capacity waiting.old }
    ensures ripe_room { deque_capacity ripe.new ≡ deque_capacity ripe.old }
{
    for _turn in 0..waiting.len() {
        if let Some(slot) = waiting.pop_front() {
            if seen.times(Kind::Disposal, slot) == 0 {
                ripe.push_back_reserved(slot);
            } else {
                waiting.push_back_reserved(slot);
            }
        }
    }
}

/// Takes the first entry of the slot out of a list, if it is there. At its front that is one step.
#[tactic(auto, using(core_functions::proofs::Slots::without_at, core_functions::proofs::Slots::without_none))]
fn take_first(list: &mut VecDeque<SlotId>, slot: SlotId)
    ensures taken { list.new.items ≡ without slot list.old.items }
    ensures fewer { deque_len list.new ≤ deque_len list.old }
    ensures capacity { deque_capacity list.new ≡ deque_capacity list.old }
{
    for i in 0..list.len() {
        if list[i].0 == slot.0 {
            let _ = list.remove(i);
            return;
        }
    }
}
