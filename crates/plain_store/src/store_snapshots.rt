//! Snapshots that the seat of a store is under.
ghost use Rattle.std.specs.Prelude.{◌≡◌, ◌<◌, ◌≤◌, IfOk, OnErr, length};
ghost use Rattle.plain_state.specs.declared.act.PlainAct.TheVariants as act;
ghost use Rattle.plain_state.specs.declared.slot.Kind.TheVariants.{Strong};
ghost use Rattle.plain_state.specs.Lists.{entry_times};
ghost use Rattle.plain_state.specs.Places.{IsOpen, place_kind};
ghost use Rattle.plain_state.specs.Steps.{Does};
ghost use Rattle.plain_store.specs.Calls.{Snaps};
ghost use Rattle.plain_store.specs.Stores.{plain_of, Kept};

use crate::entries::take_entry;
use crate::hand::SnapHand;
use crate::store::Store;
use out_of_memory::OutOfMemory;
use plain_state::{EventPlace, Kind, SlotId};

/// How many uncounted snapshots a seat is under at most.
const MOST: usize = 3;

impl Store {
    /// An uncounted snapshot of what a strong place holds.
    fn announce(&mut self, place: EventPlace) -> Result<Option<SnapHand>, OutOfMemory>
        requires kept { Kept self.old }
        requires opened { IsOpen (plain_of self.old) 0 place }
        requires strong { place_kind place ≡ Strong }
        requires few { length self.old.snapshots.items < 3 }
        ensures snaps { IfOk result (λ s. Snaps (plain_of self.old) place s (plain_of self.new)) }
        ensures slots { self.new.slots.items ≡ self.old.slots.items }
        ensures err { OnErr result (plain_of self.new ≡ plain_of self.old) }
        ensures kept { Kept self.new }
    {
        match self.content(place) {
            None => Ok(None),
            Some(slot) => {
                self.snapshots.reserve(1)?;
                self.snapshots.push_reserved((Kind::Strong, slot));
                Ok(Some(SnapHand::of(slot, false)))
            }
        }
    }

    /// A counted snapshot of what a strong place holds.
    fn load_counted(&mut self, place: EventPlace) -> Result<Option<SnapHand>, OutOfMemory>
        requires kept { Kept self.old }
        requires opened { IsOpen (plain_of self.old) 0 place }
        requires strong { place_kind place ≡ Strong }
        requires many { 3 ≤ length self.old.snapshots.items }
        ensures snaps { IfOk result (λ s. Snaps (plain_of self.old) place s (plain_of self.new)) }
        ensures slots { self.new.slots.items ≡ self.old.slots.items }
        ensures err { OnErr result (plain_of self.new ≡ plain_of self.old) }
        ensures kept { Kept self.new }
    {
        match self.load(place)? {
            None => Ok(None),
            Some(hand) => Ok(Some(SnapHand::of(hand.slot(), true))),
        }
    }

    /// A snapshot of what a strong place holds.
    pub fn snap(&mut self, place: EventPlace) -> Result<Option<SnapHand>, OutOfMemory>
        requires kept { Kept self.old }
        requires opened { IsOpen (plain_of self.old) 0 place }
        requires strong { place_kind place ≡ Strong }
        ensures snaps { IfOk result (λ s. Snaps (plain_of self.old) place s (plain_of self.new)) }
        ensures slots { self.new.slots.items ≡ self.old.slots.items }
        ensures err { OnErr result (plain_of self.new ≡ plain_of self.old) }
        ensures kept { Kept self.new }
    {
        if self.snapshots.len() < MOST {
            self.announce(place)
        } else {
            self.load_counted(place)
        }
    }

    /// An uncounted snapshot ends.
    pub fn end_snapshot(&mut self, slot: SlotId)
        requires kept { Kept self.old }
        requires under { 0 < entry_times Strong slot self.old.snapshots.items }
        ensures does { Does (plain_of self.old) 0 (act.EndSnapshot Strong slot) 0
            (plain_of self.new) }
        ensures slots { self.new.slots.items ≡ self.old.slots.items }
        ensures kept { Kept self.new }
    {
        take_entry(&mut self.snapshots, Kind::Strong, slot);
    }
}
