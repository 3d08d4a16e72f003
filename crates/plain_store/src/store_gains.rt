//! References that the seat of a store gains and gives up.
ghost use Rattle.std.specs.Prelude.{◌≡◌, ◌+◌, ◌<◌, IfOk, OnErr, length, slice_index};
ghost use Rattle.plain_state.specs.Limits.{words_of_payload};
ghost use Rattle.plain_state.specs.declared.act.PlainAct.TheVariants as act;
ghost use Rattle.plain_state.specs.State.{seat_at, slot_at};
ghost use Rattle.plain_state.specs.Places.{Holds, HoldsStrongly};
ghost use Rattle.plain_state.specs.Steps.{Does};
ghost use Rattle.plain_state.specs.Sound.{Sound};
ghost use Rattle.plain_store.specs.Heaps.{OwnsWeakly};
ghost use Rattle.plain_store.specs.Calls.{gained, weakly_gained, spent, Gains, WeaklyGains, Upgrades};
ghost use Rattle.plain_store.specs.Stores.{plain_of, Kept};

use crate::hand::{Hand, WeakHand};
use crate::store::Store;
use crate::store_hands::take_one;
use crate::tally::{count_less, count_more};
use out_of_memory::OutOfMemory;
use plain_state::SlotId;

impl Store {
    /// One more owned reference.
    pub fn own(&mut self, slot: SlotId) -> Result<(), OutOfMemory>
        requires kept { Kept self.old }
        requires there { slot.0 < length self.old.slots.items }
        requires sound { Sound (gained (plain_of self.old) slot) }
        ensures owns { IfOk result (λ _. plain_of self.new ≡ gained (plain_of self.old) slot) }
        ensures slots { self.new.slots.items ≡ self.old.slots.items }
        ensures err { OnErr result (plain_of self.new ≡ plain_of self.old) }
        ensures kept { Kept self.new }
    {
        let adds = self.next_add()?;
        self.owned.reserve(1)?;
        self.owned.push_reserved(slot);
        self.adds = adds;
        count_more(&mut self.strong, slot);
        Ok(())
    }

    /// One more weak reference.
    pub fn own_weakly(&mut self, slot: SlotId) -> Result<(), OutOfMemory>
        requires kept { Kept self.old }
        requires there { slot.0 < length self.old.slots.items }
        requires sound { Sound (weakly_gained (plain_of self.old) slot) }
        ensures owns { IfOk result (λ _.
            plain_of self.new ≡ weakly_gained (plain_of self.old) slot) }
        ensures slots { self.new.slots.items ≡ self.old.slots.items }
        ensures err { OnErr result (plain_of self.new ≡ plain_of self.old) }
        ensures kept { Kept self.new }
    {
        let adds = self.next_add()?;
        self.weaks.reserve(1)?;
        self.weaks.push_reserved(slot);
        self.adds = adds;
        count_more(&mut self.weak, slot);
        Ok(())
    }

    /// An add that gains nothing.
    fn spend_add(&mut self) -> Result<(), OutOfMemory>
        requires { Kept self.old }
        ensures spends { IfOk result (λ _. plain_of self.new ≡ spent (plain_of self.old)) }
        ensures slots { self.new.slots.items ≡ self.old.slots.items }
        ensures err { OnErr result (plain_of self.new ≡ plain_of self.old) }
        ensures kept { Kept self.new }
    {
        self.adds = self.next_add()?;
        Ok(())
    }

    /// One more owned reference to an object that the seat holds strongly.
    pub fn gain(&mut self, slot: SlotId) -> Result<Hand, OutOfMemory>
        requires kept { Kept self.old }
        requires held { HoldsStrongly (seat_at (plain_of self.old) 0) slot }
        ensures gains { IfOk result (λ h. Gains (plain_of self.old) slot h (plain_of self.new)) }
        ensures slots { self.new.slots.items ≡ self.old.slots.items }
        ensures err { OnErr result (plain_of self.new ≡ plain_of self.old) }
        ensures kept { Kept self.new }
    {
        self.own(slot)?;
        Ok(Hand::of(slot))
    }

    /// One more weak reference to a slot that the seat holds.
    pub fn weak_gain(&mut self, slot: SlotId) -> Result<WeakHand, OutOfMemory>
        requires kept { Kept self.old }
        requires held { Holds (seat_at (plain_of self.old) 0) slot }
        ensures gains { IfOk result (λ w.
            WeaklyGains (plain_of self.old) slot w (plain_of self.new)) }
        ensures slots { self.new.slots.items ≡ self.old.slots.items }
        ensures err { OnErr result (plain_of self.new ≡ plain_of self.old) }
        ensures kept { Kept self.new }
    {
        self.own_weakly(slot)?;
        Ok(WeakHand::of(slot))
    }

    /// A word of the payload of a slot.
    pub fn word(&self, slot: SlotId, word: u32) -> u64
        requires kept { Kept self.now }
        requires held { Holds (seat_at (plain_of self.now) 0) slot }
        requires word { word < words_of_payload }
        ensures { result ≡ slice_index (slot_at (plain_of self.now) slot).payload word }
    {
        self.slots[slot.0 as usize].payload[word as usize]
    }

    /// The zero mark of a slot.
    fn is_marked(&self, slot: SlotId) -> bool
        requires { slot.0 < length self.now.slots.items }
        ensures { result ≡ (slot_at (plain_of self.now) slot).marked }
    {
        self.slots[slot.0 as usize].marked
    }

    /// One more owned reference, where the zero mark doesn't stand.
    pub fn upgrade(&mut self, slot: SlotId) -> Result<Option<Hand>, OutOfMemory>
        requires kept { Kept self.old }
        requires held { Holds (seat_at (plain_of self.old) 0) slot }
        ensures upgrades { IfOk result (λ r.
            Upgrades (plain_of self.old) slot r (plain_of self.new)) }
        ensures slots { self.new.slots.items ≡ self.old.slots.items }
        ensures err { OnErr result (plain_of self.new ≡ plain_of self.old) }
        ensures kept { Kept self.new }
    {
        if self.is_marked(slot) {
            self.spend_add()?;
            return Ok(None);
        }
        self.own(slot)?;
        Ok(Some(Hand::of(slot)))
    }

    pub fn drop_weak(&mut self, slot: SlotId)
        requires kept { Kept self.old }
        requires owns { OwnsWeakly (plain_of self.old) slot }
        ensures does { Does (plain_of self.old) 0 (act.WeakDrop slot) 0 (plain_of self.new) }
        ensures kept { Kept self.new }
    {
        take_one(&mut self.weaks, slot);
        count_less(&mut self.weak, slot);
    }
}
