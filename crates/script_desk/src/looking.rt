//! What a name stands for, which the heap's seat has, and which place of the heap the words of a command name.
ghost use Rattle.std.specs.Prelude.{◌≡◌, Some};
ghost use Rattle.plain_audit.specs.plain_state.Places.{IsOpen};
ghost use Rattle.plain_audit.specs.plain_state.State.{seat_at};
ghost use Rattle.plain_audit.specs.plain_state.declared.slot.Kind.TheVariants.{Strong as StrongKind};
ghost use Rattle.plain_settling.specs.plain_store.Calls.{MayGive};
ghost use Rattle.plain_settling.specs.plain_store.Heaps.{Owns, OwnsWeakly};
ghost use Rattle.script_desk.specs.declared.handle.Handle.{Handle as Bound};
ghost use Rattle.script_desk.specs.declared.handle.Handle.TheVariants.{Strong, Weak};
ghost use Rattle.script_desk.specs.Desks.{bound, scope_of};
ghost use Rattle.script_desk.specs.Effects.{IsPlace, IsSlotOf};
ghost use Rattle.script_desk.specs.Faults.{IsPlaceInRange, is_weak_place, place_needs, need_of};
ghost use Rattle.script_desk.specs.Handles.{is_strong, is_weak, is_any, slot_of};
ghost use Rattle.script_desk.specs.Holding.{HasHandle};
ghost use Rattle.script_desk.specs.Places.{AreMet, IsBoundTo, event_place, is_weak_one};

use crate::desk::Desk;
use crate::place::HeapPlace;
use crate::resolving::place_of;
use crate::sizes::Sizes;
use plain_settling::{Hand, SlotId};
use script_lines::{Name, TextPlace};

impl Desk {
    /// How many cells the heap has.
    pub(crate) fn sizes(&self) -> Sizes
        ensures { result ≡ (scope_of self.now).sizes }
    {
        Sizes {
            cells: self.cells,
            weak_cells: self.weak_cells,
        }
    }

    /// The slot of what the name is bound to, which the heap's seat has.
    pub(crate) fn slot(&self, name: &Name) -> SlotId
        requires { IsBoundTo self.now.names name.now is_any }
        ensures { (h : Bound) × (bound self.now.names name.now ≡ Some h) × (result ≡ slot_of h)
            × HasHandle self.now.plain h }
    {
        self.names.slot(name)
    }

    /// The slot of a strong handle.
    pub(crate) fn strong_slot(&self, name: &Name) -> SlotId
        requires { IsBoundTo self.now.names name.now is_strong }
        ensures is { bound self.now.names name.now ≡ Some (Strong result) }
        ensures owns { Owns self.now.plain result }
    {
        self.names.strong_slot(name)
    }

    /// The slot of a weak handle.
    pub(crate) fn weak_slot(&self, name: &Name) -> SlotId
        requires { IsBoundTo self.now.names name.now is_weak }
        ensures is { bound self.now.names name.now ≡ Some (Weak result) }
        ensures owns { OwnsWeakly self.now.plain result }
    {
        self.names.weak_slot(name)
    }

    /// A strong handle to which a name is bound, or none for `null`.
    pub(crate) fn hand_if_some(&self, name: &Option<Name>) -> Option<Hand>
        requires { AreMet self.now.names (need_of name.now is_strong) }
        ensures is { IsSlotOf self.now.names name.now result }
        ensures given { MayGive StrongKind result (seat_at self.now.plain 0) }
    {
        match name {
            Some(name) => Some(Hand::of(self.strong_slot(name))),
            None => None,
        }
    }

    /// The place that the words of a command name.
    pub(crate) fn place(&self, place: &TextPlace) -> HeapPlace
        requires range { IsPlaceInRange (scope_of self.now).sizes place.now }
        requires needs { AreMet self.now.names (place_needs place.now) }
        ensures is { IsPlace self.now.names place.now (event_place result) }
        ensures opened { IsOpen self.now.plain 0 (event_place result) }
        ensures kind { is_weak_one result ≡ is_weak_place place.now }
    {
        HeapPlace::of(place_of(&self.names, self.sizes(), place))
    }
}
