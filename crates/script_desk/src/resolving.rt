//! What a name stands for, and which place of the heap the words of a command name.
ghost use Rattle.std.specs.Prelude.{◌≡◌, ◌<◌, Some};
ghost use Rattle.script_desk.specs.declared.handle.Handle.{Handle as Bound};
ghost use Rattle.script_desk.specs.declared.handle.Handle.TheVariants.{Strong, Weak};
ghost use Rattle.script_desk.specs.Desks.{bound};
ghost use Rattle.script_desk.specs.Effects.{IsPlace, IsSlotOf};
ghost use Rattle.script_desk.specs.Faults.{IsPlaceInRange, need_of, place_needs};
ghost use Rattle.script_desk.specs.Handles.{is_any, is_strong, is_weak, slot_of};
ghost use Rattle.script_desk.specs.Places.{AreMet, IsBoundTo};

use crate::handle::Handle;
use crate::names::NameTable;
use crate::sizes::Sizes;
use plain_settling::{EventPlace, SlotId};
use script_lines::{Name, TextPlace};

/// A number that is below this one.
fn below(number: u128, limit: u32) -> u32
    requires { number < limit }
    ensures { result ≡ number }
{
    number as u32
}

impl NameTable {
    /// The slot of what the name is bound to.
    pub fn slot(&self, name: &Name) -> SlotId
        requires { IsBoundTo self.now name.now is_any }
        ensures { (h : Bound) × (bound self.now name.now ≡ Some h) × (result ≡ slot_of h) }
    {
        match self.get(name) {
            Some(handle) => handle.slot(),
            None => unreachable!(),
        }
    }

    /// The slot of a strong handle.
    pub fn strong_slot(&self, name: &Name) -> SlotId
        requires { IsBoundTo self.now name.now is_strong }
        ensures { bound self.now name.now ≡ Some (Strong result) }
    {
        match self.get(name) {
            Some(Handle::Strong(hand)) => hand.slot(),
            _ => unreachable!(),
        }
    }

    /// The slot of a weak handle.
    pub fn weak_slot(&self, name: &Name) -> SlotId
        requires { IsBoundTo self.now name.now is_weak }
        ensures { bound self.now name.now ≡ Some (Weak result) }
    {
        match self.get(name) {
            Some(Handle::Weak(hand)) => hand.slot(),
            _ => unreachable!(),
        }
    }

    /// The slot that a name or `null` stands for.
    pub fn slot_if_some(&self, name: &Option<Name>) -> Option<SlotId>
        requires { AreMet self.now (need_of name.now is_any) }
        ensures { IsSlotOf self.now name.now result }
    {
        match name {
            Some(name) => Some(self.slot(name)),
            None => None,
        }
    }
}

/// The place that the words of a command name.
pub fn place_of(names: &NameTable, sizes: Sizes, place: &TextPlace) -> EventPlace
    requires range { IsPlaceInRange sizes place.now }
    requires needs { AreMet names.now (place_needs place.now) }
    ensures { IsPlace names.now place.now result }
{
    match place {
        TextPlace::Cell(cell) => EventPlace::Cell(below(*cell, sizes.cells)),
        TextPlace::WeakCell(cell) => EventPlace::WeakCell(below(*cell, sizes.weak_cells)),
        TextPlace::Field(name, field) => EventPlace::Field(names.slot(name), *field),
        TextPlace::WeakField(name) => EventPlace::WeakField(names.slot(name)),
    }
}
