//! How a store settles: the parts of one pass, each some plain steps. Room for all that they move is made first.
ghost use Rattle.std.specs.Prelude.{◌≡◌, ◌≢◌, ◌+◌, ◌<◌, ◌≤◌, ◌++◌, List, length, take, OnOk, IfSome, IfNone, [], slice_index_or, slice_set, vec_len, vec_capacity};
ghost use Rattle.std.specs.VecDeque.{deque_capacity};
ghost use Rattle.std.specs.List.{remove};
ghost use Rattle.plain_state.specs.declared.slot.SlotId.{SlotId};
ghost use Rattle.plain_state.specs.declared.slot.Kind.TheVariants as kinds;
ghost use Rattle.plain_state.specs.declared.slot.Stage.TheVariants.{Live, Ended, Husk};
ghost use Rattle.plain_state.specs.Lists.{Entry, entry_times};
ghost use Rattle.plain_state.specs.State.{new_slot, seat_at, slot_at, stage_at};
ghost use Rattle.plain_state.specs.References.{strong_refs, weak_refs};
ghost use Rattle.plain_state.specs.Steps.{joined};
ghost use Rattle.plain_store.specs.Stores.{plain_of, Kept};
ghost use Rattle.plain_store.specs.Draining.{SettlesFreely, CalmsAt, Destroys, IsCalm, HasRoom, AllNeeded, fewer, husk_of, ended_of, freed_of};

use crate::entries::{count_before, defer, entry_count};
use crate::store::Store;
use crate::tally::count_less;
use out_of_memory::OutOfMemory;
use plain_state::{Kind, PlainSlot, SlotId, Stage};
use std::collections::VecDeque;

/// The entry at a place of the list.
fn entry_at(list: &VecDeque<(Kind, SlotId)>, at: usize) -> (Kind, SlotId)
    requires { at < length list.now.items }
    ensures { slice_index_or list.now.items at result ≡ result }
{
    list[at]
}

/// One reference of this kind to the slot fewer.
fn count_one_less(strong: &mut Vec<u64>, weak: &mut Vec<u64>, kind: Kind, slot: SlotId)
    requires strong { kind ≡ kinds.Strong → (slot.0 < length strong.old.items)
        × (0 < slice_index_or strong.old.items slot.0 0) }
    requires weak { kind ≡ kinds.Weak → (slot.0 < length weak.old.items)
        × (0 < slice_index_or weak.old.items slot.0 0) }
    ensures strong { strong.new.items ≡ fewer kinds.Strong kind slot.0 strong.old.items }
    ensures weak { weak.new.items ≡ fewer kinds.Weak kind slot.0 weak.old.items }
{
    match kind {
        Kind::Strong => count_less(strong, slot),
        Kind::Weak => count_less(weak, slot),
        Kind::Disposal => {}
    }
}

/// What the store has of the slot.
fn slot_in(slots: &Vec<PlainSlot>, slot: SlotId) -> PlainSlot
    requires { slot.0 < length slots.now.items }
    ensures { result ≡ slice_index_or slots.now.items slot.0 new_slot }
{
    slots[slot.0 as usize]
}

/// The slot of an object that ended.
fn ended(x: PlainSlot) -> PlainSlot
    ensures { result ≡ ended_of x }
{
    PlainSlot {
        stage: Stage::Ended,
        marked: true,
        ..x
    }
}

/// The slot after its object was destroyed.
fn husk(x: PlainSlot) -> PlainSlot
    ensures { result ≡ husk_of x }
{
    PlainSlot {
        stage: Stage::Husk,
        first: None,
        second: None,
        weak_field: None,
        ..x
    }
}

/// The slot after it was given again.
fn freed(x: PlainSlot) -> PlainSlot
    ensures { result ≡ freed_of x }
{
    PlainSlot {
        stage: Stage::Free,
        ..x
    }
}

impl Store {
    /// Room for all that a settle moves.
    pub fn make_room(&mut self) -> Result<(), OutOfMemory>
        requires { Kept self.old }
        ensures plain { plain_of self.new ≡ plain_of self.old }
        ensures kept { Kept self.new }
        ensures room { OnOk result (HasRoom self.new) }
    {
        let slots = self.slots.len();
        self.dying.reserve(slots)?;
        self.deferred.reserve(3 * slots)?;
        Ok(())
    }

    /// A live object without references ends.
    fn end(&mut self, slot: SlotId)
        requires kept { Kept self.old }
        requires room { HasRoom self.old }
        requires live { stage_at (plain_of self.old) slot ≡ Live }
        requires none { strong_refs (plain_of self.old) slot ≡ 0 }
        ensures { CalmsAt slot self.old self.new }
    {
        let object = ended(slot_in(&self.slots, slot));
        self.slots[slot.0 as usize] = object;
        self.dying.push_reserved(slot);
    }

    /// A husk without references is given again.
    fn give(&mut self, slot: SlotId)
        requires kept { Kept self.old }
        requires room { HasRoom self.old }
        requires husk { stage_at (plain_of self.old) slot ≡ Husk }
        requires none { weak_refs (plain_of self.old) slot ≡ 0 }
        ensures { CalmsAt slot self.old self.new }
    {
        let empty = freed(slot_in(&self.slots, slot));
        self.slots[slot.0 as usize] = empty;
    }

    /// The slot ends, or is given again, where nothing keeps it.
    pub fn end_or_give(&mut self, slot: SlotId)
        requires kept { Kept self.old }
        requires room { HasRoom self.old }
        requires there { slot.0 < length self.old.slots.items }
        ensures { CalmsAt slot self.old self.new }
    {
        let at = slot.0 as usize;
        let stage = self.slots[at].stage;
        if stage == Stage::Live && self.strong[at] == 0 {
            self.end(slot);
        } else if stage == Stage::Husk && self.weak[at] == 0 {
            self.give(slot);
        }
    }

    /// Each slot ends, or is given again, where nothing keeps it.
    pub fn sweep(&mut self)
        requires kept { Kept self.old }
        requires room { HasRoom self.old }
        ensures settles { SettlesFreely (plain_of self.old) (plain_of self.new) }
        ensures kept { Kept self.new }
        ensures room { HasRoom self.new }
        ensures calm { (s : SlotId) → IsCalm (plain_of self.new) s }
    {
        for i in 0..self.slots.len() {
            self.end_or_give(SlotId(i as u32));
        }
    }

    /// An entry goes in front of which as many equal ones stand as there are snapshots of it. The others keep their
    /// order.
    fn take_out(&mut self, at: usize, entry: (Kind, SlotId))
        requires kept { Kept self.old }
        requires room { HasRoom self.old }
        requires there { at < length self.old.deferred.items }
        requires entry { slice_index_or self.old.deferred.items at entry ≡ entry }
        requires later { entry_times entry.0 entry.1 self.old.snapshots.items
            ≤ entry_times entry.0 entry.1 (take at self.old.deferred.items) }
        ensures settles { SettlesFreely (plain_of self.old) (plain_of self.new) }
        ensures kept { Kept self.new }
        ensures room { HasRoom self.new }
        ensures calm { (s : SlotId) → s ≢ entry.1 → IsCalm (plain_of self.old) s
            → IsCalm (plain_of self.new) s }
        ensures deferred { self.new.deferred.items ≡ remove self.old.deferred.items at }
        ensures snapshots { self.new.snapshots ≡ self.old.snapshots }
        ensures slots { self.new.slots.items ≡ self.old.slots.items }
    {
        self.deferred.remove(at);
        count_one_less(&mut self.strong, &mut self.weak, entry.0, entry.1);
    }

    /// The entry at `stays` goes, if it is a surplus, or else it stays too. Answers how many entries stay so far.
    pub fn eject_or_keep(&mut self, stays: usize) -> usize
        requires kept { Kept self.old }
        requires room { HasRoom self.old }
        requires there { stays < length self.old.deferred.items }
        requires needed { AllNeeded (take stays self.old.deferred.items) self.old.snapshots.items }
        requires calm { (s : SlotId) → IsCalm (plain_of self.old) s }
        ensures settles { SettlesFreely (plain_of self.old) (plain_of self.new) }
        ensures kept { Kept self.new }
        ensures room { HasRoom self.new }
        ensures calm { (s : SlotId) → IsCalm (plain_of self.new) s }
        ensures stays { result ≤ length self.new.deferred.items }
        ensures needed { AllNeeded (take result self.new.deferred.items) self.new.snapshots.items }
        ensures fewer { length self.new.deferred.items + stays
            < length self.old.deferred.items + result }
    {
        let entry = entry_at(&self.deferred, stays);
        let before = count_before(&self.deferred, stays, entry.0, entry.1);
        if before < entry_count(&self.snapshots, entry.0, entry.1) {
            return stays + 1;
        }
        self.take_out(stays, entry);
        self.end_or_give(entry.1);
        stays
    }

    /// The object that ended last is destroyed: what its fields held is deferred. Answers its payload.
    pub fn destroy_next(&mut self) -> Option<[u64; 16]>
        requires kept { Kept self.old }
        requires room { HasRoom self.old }
        requires calm { (s : SlotId) → IsCalm (plain_of self.old) s }
        ensures none { IfNone result ((plain_of self.new ≡ plain_of self.old)
            × (self.new.dying.items ≡ [])) }
        ensures some { IfSome result (λ words.
            Destroys (plain_of self.old) words (plain_of self.new)) }
        ensures object { IfSome result (λ words. (s : SlotId)
            × (stage_at (plain_of self.old) s ≡ Ended)
            × (words ≡ (slot_at (plain_of self.old) s).payload)) }
        ensures kept { Kept self.new }
        ensures room { HasRoom self.new }
        ensures calm { (s : SlotId) → IsCalm (plain_of self.new) s }
        ensures deferred { (more : List Entry)
            × (self.new.deferred.items ≡ self.old.deferred.items ++ more)
            × (length more ≤ 3) }
        ensures snapshots { self.new.snapshots ≡ self.old.snapshots }
    {
        let slot = self.dying.pop()?;
        let object = slot_in(&self.slots, slot);
        self.empty(slot, object);
        self.end_or_give(slot);
        Some(object.payload)
    }

    /// The object's fields are cleared, and its slot is a husk.
    fn empty(&mut self, slot: SlotId, object: PlainSlot)
        requires there { slot.0 < length self.old.slots.items }
        requires room { length self.old.deferred.items + 3 ≤ deque_capacity self.old.deferred }
        requires counted { (slot.0 < length self.old.weak.items)
            × (0 < slice_index_or self.old.weak.items slot.0 0) }
        ensures slots { self.new.slots.items
            ≡ slice_set self.old.slots.items slot.0 (husk_of object) }
        ensures deferred { self.new.deferred.items ≡ joined kinds.Weak object.weak_field
            (joined kinds.Strong object.second
            (joined kinds.Strong object.first self.old.deferred.items)) }
        ensures len { length self.new.deferred.items ≤ length self.old.deferred.items + 3 }
        ensures capacity { deque_capacity self.new.deferred ≡ deque_capacity self.old.deferred }
        ensures weak { self.new.weak.items
            ≡ fewer kinds.Weak kinds.Weak slot.0 self.old.weak.items }
        ensures dying { self.new.dying ≡ self.old.dying }
        ensures snapshots { self.new.snapshots ≡ self.old.snapshots }
        ensures owned { (self.new.owned.items ≡ self.old.owned.items)
            × (self.new.weaks.items ≡ self.old.weaks.items) }
        ensures cells { (self.new.cells.items ≡ self.old.cells.items)
            × (self.new.weak_cells.items ≡ self.old.weak_cells.items) }
        ensures rest { (self.new.strong.items ≡ self.old.strong.items)
            × (self.new.adds ≡ self.old.adds) × (self.new.next ≡ self.old.next) }
    {
        self.slots[slot.0 as usize] = husk(object);
        defer(&mut self.deferred, Kind::Strong, object.first);
        defer(&mut self.deferred, Kind::Strong, object.second);
        defer(&mut self.deferred, Kind::Weak, object.weak_field);
        count_less(&mut self.weak, slot);
    }
}
