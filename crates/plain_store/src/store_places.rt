//! The places of a store: what they hold, and how another content comes into them.
ghost use Rattle.std.specs.Prelude.{◌≡◌, ◌↔◌, ◌+◌, ◌<◌, IsTrue, IfOk, OnErr, length, vec_len, vec_capacity};
ghost use Rattle.plain_state.specs.State.{seat_at};
ghost use Rattle.plain_state.specs.Places.{IsOpen, place_kind, field_of, with_field, content, with_content};
ghost use Rattle.plain_state.specs.Steps.{joined};
ghost use Rattle.plain_store.specs.Calls.{HasPlace, MayGive, HasGiven, SameObjects, Puts, Tries};
ghost use Rattle.plain_store.specs.Stores.{plain_of, Kept};

use crate::entries::defer;
use crate::store::Store;
use crate::store_hands::take_one;
use out_of_memory::OutOfMemory;
use plain_state::{EventPlace, Kind, PlainSlot, SlotId};

/// The kind of the references that a place holds.
fn kind_of(place: EventPlace) -> Kind
    ensures { result ≡ place_kind place }
{
    match place {
        EventPlace::Cell(_) | EventPlace::Field(_, _) => Kind::Strong,
        EventPlace::WeakCell(_) | EventPlace::WeakField(_) => Kind::Weak,
    }
}

/// A strong field of a slot.
fn strong_field(object: &PlainSlot, field: u32) -> Option<SlotId>
    ensures { result ≡ field_of field object.now }
{
    if field == 0 {
        object.first
    } else {
        object.second
    }
}

/// The slot with another content of a strong field.
fn with_strong_field(object: PlainSlot, field: u32, new: Option<SlotId>) -> PlainSlot
    ensures { result ≡ with_field field new object }
{
    if field == 0 {
        PlainSlot {
            first: new,
            ..object
        }
    } else {
        PlainSlot {
            second: new,
            ..object
        }
    }
}

/// Whether two places hold the same.
fn same(a: Option<SlotId>, b: Option<SlotId>) -> bool
    ensures { IsTrue result ↔ (a ≡ b) }
{
    match (a, b) {
        (None, None) => true,
        (Some(x), Some(y)) => x.0 == y.0,
        (None, Some(_)) | (Some(_), None) => false,
    }
}

impl Store {
    /// What a place holds.
    pub fn content(&self, place: EventPlace) -> Option<SlotId>
        requires { HasPlace (plain_of self.now) place }
        ensures { result ≡ content (plain_of self.now) place }
    {
        match place {
            EventPlace::Cell(cell) => self.cells[cell as usize],
            EventPlace::Field(slot, field) => strong_field(&self.slots[slot.0 as usize], field),
            EventPlace::WeakCell(cell) => self.weak_cells[cell as usize],
            EventPlace::WeakField(slot) => self.slots[slot.0 as usize].weak_field,
        }
    }

    /// Another content of a place.
    fn set_content(&mut self, place: EventPlace, new: Option<SlotId>)
        requires { HasPlace (plain_of self.old) place }
        ensures plain { plain_of self.new ≡ with_content (plain_of self.old) place new }
        ensures strong { self.new.strong ≡ self.old.strong }
        ensures weak { self.new.weak ≡ self.old.weak }
        ensures next { self.new.next ≡ self.old.next }
    {
        match place {
            EventPlace::Cell(cell) => self.cells[cell as usize] = new,
            EventPlace::Field(slot, field) => {
                let at = slot.0 as usize;
                self.slots[at] = with_strong_field(self.slots[at], field, new);
            }
            EventPlace::WeakCell(cell) => self.weak_cells[cell as usize] = new,
            EventPlace::WeakField(slot) => {
                let at = slot.0 as usize;
                self.slots[at] = PlainSlot {
                    weak_field: new,
                    ..self.slots[at]
                };
            }
        }
    }

    /// The seat gives up a reference of this kind, if it is given one.
    fn give_up(&mut self, kind: Kind, new: Option<SlotId>)
        requires { MayGive kind new (seat_at (plain_of self.old) 0) }
        ensures gives { HasGiven (plain_of self.old) kind new (plain_of self.new) }
        ensures deferred { self.new.deferred ≡ self.old.deferred }
        ensures strong { self.new.strong ≡ self.old.strong }
        ensures weak { self.new.weak ≡ self.old.weak }
        ensures next { self.new.next ≡ self.old.next }
    {
        match new {
            None => {}
            Some(slot) => match kind {
                Kind::Strong => take_one(&mut self.owned, slot),
                Kind::Weak => take_one(&mut self.weaks, slot),
                Kind::Disposal => {}
            },
        }
    }

    /// The place takes a reference that the seat gives up, or null; what it held is deferred.
    pub fn replace(&mut self, place: EventPlace, new: Option<SlotId>) -> Result<(), OutOfMemory>
        requires kept { Kept self.old }
        requires opened { IsOpen (plain_of self.old) 0 place }
        requires given { MayGive (place_kind place) new (seat_at (plain_of self.old) 0) }
        ensures puts { IfOk result (λ _. Puts (plain_of self.old) place new (plain_of self.new)) }
        ensures objects { SameObjects (plain_of self.old) (plain_of self.new) }
        ensures err { OnErr result (plain_of self.new ≡ plain_of self.old) }
        ensures kept { Kept self.new }
    {
        let kind = kind_of(place);
        let old = self.content(place);
        self.deferred.reserve(1)?;
        self.give_up(kind, new);
        defer(&mut self.deferred, kind, old);
        self.set_content(place, new);
        Ok(())
    }

    /// The same where the place holds `expected`; else nothing.
    pub fn try_replace(
        &mut self,
        place: EventPlace,
        expected: Option<SlotId>,
        new: Option<SlotId>,
    ) -> Result<bool, OutOfMemory>
        requires kept { Kept self.old }
        requires opened { IsOpen (plain_of self.old) 0 place }
        requires given { MayGive (place_kind place) new (seat_at (plain_of self.old) 0) }
        ensures tries { IfOk result (λ done.
            Tries (plain_of self.old) place expected new done (plain_of self.new)) }
        ensures objects { SameObjects (plain_of self.old) (plain_of self.new) }
        ensures err { OnErr result (plain_of self.new ≡ plain_of self.old) }
        ensures kept { Kept self.new }
    {
        if !same(self.content(place), expected) {
            return Ok(false);
        }
        self.replace(place, new)?;
        Ok(true)
    }
}
