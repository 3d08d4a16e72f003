//! References that the seat of a store owns: made, counted, given up.
ghost use Rattle.std.specs.Prelude.{◌≡◌, ◌≢◌, ◌+◌, ◌<◌, ◌≤◌, ◌^◌, ◌↔◌, IfOk, IfSome, OnErr, IfErr, IfNone, IsTrue, List, All, ℕ, length, vec_len, slice_index_or, slice_set};
ghost use Rattle.plain_state.specs.declared.act.PlainAct.TheVariants as act;
ghost use Rattle.plain_state.specs.declared.slot.Stage.TheVariants.{Free};
ghost use Rattle.plain_state.specs.Lists.{times, Loses};
ghost use Rattle.plain_state.specs.State.{new_slot, slot_at};
ghost use Rattle.plain_state.specs.Steps.{Does};
ghost use Rattle.plain_state.specs.References.{strong_refs, weak_refs};
ghost use Rattle.plain_store.specs.Heaps.{Owns, made_slot, Makes, NoneFree};
ghost use Rattle.plain_store.specs.Stores.{plain_of, Kept};

use crate::hand::Hand;
use crate::refusal::{Full, MakeRefused};
use crate::store::Store;
use crate::tally::{count_less, count_of};
use out_of_memory::OutOfMemory;
use plain_state::{PlainSlot, SlotId, Stage, ZERO};

/// So many adds are counted: no count of references reaches the zero flag of its word.
const MOST_ADDS: u64 = ZERO - 2;

/// The first free slot from `from` on and before `to`.
fn free_between(slots: &[PlainSlot], from: usize, to: usize) -> Option<usize>
    requires { (from ≤ to) × (to ≤ length slots.now) }
    ensures found { IfSome result (λ i. (i < length slots.now)
        × ((slice_index_or slots.now i new_slot).stage ≡ Free)) }
    ensures none { IfNone result ((i : ℕ) → from ≤ i → i < to
        → (slice_index_or slots.now i new_slot).stage ≢ Free) }
{
    for i in from..to {
        if slots[i].stage == Stage::Free {
            return Some(i);
        }
    }
    None
}

/// Where `slot` stands last in the list, if it stands there: what was gained last is mostly given up first.
fn index_of(list: &[SlotId], slot: SlotId) -> Option<usize>
    ensures none { IfNone result (times slot list.now ≡ 0) }
    ensures found { IfSome result (λ i. (i < length list.now)
        × (slice_index_or list.now i slot ≡ slot)) }
{
    for i in (0..list.len()).rev() {
        if list[i].0 == slot.0 {
            return Some(i);
        }
    }
    None
}

/// Takes one entry of `slot` out of the list.
pub(crate) fn take_one(list: &mut Vec<SlotId>, slot: SlotId)
    requires { 0 < times slot list.old.items }
    ensures { Loses list.old.items slot list.new.items }
{
    if let Some(at) = index_of(list, slot) {
        list.remove(at);
    }
}

/// The slot with an object of this payload. None where its lives are counted out.
fn made_from(slots: &Vec<PlainSlot>, slot: SlotId, payload: &[u64; 16]) -> Option<PlainSlot>
    requires { slot.0 < length slots.now.items }
    ensures { IfSome result (λ x.
        x ≡ made_slot (slice_index_or slots.now.items slot.0 new_slot) payload.now) }
{
    let old = slots[slot.0 as usize];
    let life = old.life.checked_add(1)?;
    Some(PlainSlot {
        stage: Stage::Live,
        marked: false,
        life,
        payload: *payload,
        first: old.first,
        second: old.second,
        weak_field: old.weak_field,
    })
}

impl Store {
    /// Where a free slot is: the next one from where the last was found, going round once. Full where there is none.
    pub fn free_slot(&self) -> Result<usize, Full>
        requires { Kept self.now }
        ensures found { IfOk result (λ i. (i < length self.now.slots.items)
            × ((slice_index_or self.now.slots.items i new_slot).stage ≡ Free)) }
        ensures full { OnErr result (NoneFree (plain_of self.now)) }
    {
        if let Some(at) = free_between(&self.slots, self.next, self.slots.len()) {
            return Ok(at);
        }
        match free_between(&self.slots, 0, self.next) {
            Some(at) => Ok(at),
            None => Err(Full),
        }
    }

    /// The adds after one more.
    pub fn next_add(&self) -> Result<u64, OutOfMemory>
        ensures { IfOk result (λ n. (n ≡ self.now.adds + 1) × (n + 1 < 2 ^ 63)) }
    {
        if self.adds < MOST_ADDS {
            Ok(self.adds + 1)
        } else {
            Err(OutOfMemory)
        }
    }

    pub fn make(&mut self, payload: &[u64; 16]) -> Result<Hand, MakeRefused>
        requires { Kept self.old }
        ensures made { IfOk result (λ s.
            Makes (plain_of self.old) s payload.now (plain_of self.new)) }
        ensures slots { IfOk result (λ s. self.new.slots.items ≡ slice_set self.old.slots.items s.0
            (made_slot (slot_at (plain_of self.old) s) payload.now)) }
        ensures full { (result ≡ Err MakeRefused.Full) ↔ NoneFree (plain_of self.old) }
        ensures err { OnErr result (plain_of self.new ≡ plain_of self.old) }
        ensures kept { Kept self.new }
    {
        let at = self.free_slot()?;
        let adds = self.next_add()?;
        let slot = SlotId(at as u32);
        let Some(object) = made_from(&self.slots, slot, payload) else {
            return Err(MakeRefused::OutOfMemory);
        };
        self.owned.reserve(1)?;
        self.owned.push_reserved(slot);
        self.adds = adds;
        self.slots[at] = object;
        self.strong[at] = 1;
        self.weak[at] = 1;
        self.next = at;
        Ok(Hand::of(slot))
    }

    pub fn drop_owned(&mut self, slot: SlotId)
        requires kept { Kept self.old }
        requires owns { Owns (plain_of self.old) slot }
        ensures does { Does (plain_of self.old) 0 (act.Drop slot) 0 (plain_of self.new) }
        ensures kept { Kept self.new }
    {
        take_one(&mut self.owned, slot);
        count_less(&mut self.strong, slot);
    }

    /// Whether the seat owns a reference to the slot.
    pub fn owns(&self, slot: SlotId) -> bool
        ensures { IsTrue result ↔ Owns (plain_of self.now) slot }
    {
        index_of(&self.owned, slot).is_some()
    }

    /// How many slots there are.
    pub fn slot_count(&self) -> u32
        requires { Kept self.now }
        ensures { result ≡ length self.now.slots.items }
    {
        self.slots.len() as u32
    }

    /// The references to a slot, strong and weak.
    pub fn counts(&self, slot: SlotId) -> (u64, u64)
        requires kept { Kept self.now }
        requires there { slot.0 < length self.now.slots.items }
        ensures strong { result.0 ≡ strong_refs (plain_of self.now) slot }
        ensures weak { result.1 ≡ weak_refs (plain_of self.now) slot }
    {
        (count_of(&self.strong, slot), count_of(&self.weak, slot))
    }
}
