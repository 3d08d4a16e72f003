//! Places: put, cleared, loaded, replaced.
ghost use Rattle.std.specs.Prelude.{◌≡◌, true, false, ◌∷◌, [], IfOk, None};
ghost use Rattle.plain_audit.specs.plain_state.Places.{IsOpen};
ghost use Rattle.plain_settling.specs.plain_store.Calls.{strong_place, weak_place};
ghost use Rattle.script_lines.specs.declared.command.Command.TheVariants as command;
ghost use Rattle.script_desk.specs.Desks.{bound, scope_of};
ghost use Rattle.script_desk.specs.Effects.{Acts, LoadsStrong, LoadsWeak};
ghost use Rattle.script_desk.specs.Faults.{IsPlaceInRange, is_weak_place, place_needs, need_of, taken_by};
ghost use Rattle.script_desk.specs.Handles.{is_firm, is_strong};
ghost use Rattle.script_desk.specs.Places.{AreMet, IsBoundTo};

use crate::binding::bind;
use crate::desk::Desk;
use crate::handle::Handle;
use crate::place::HeapPlace;
use crate::said::Said;
use plain_settling::{PlainPlace, PlainWeakPlace};
use script_lines::{Name, OutOfMemory, TextPlace};

impl Desk {
    /// The place holds what the name was bound to.
    pub(crate) fn put(&mut self, place: &TextPlace, name: &Name) -> Result<Said, OutOfMemory>
        requires range { IsPlaceInRange (scope_of self.old).sizes place.now }
        requires needs { AreMet self.old.names (place_needs place.now) }
        requires bound { IsBoundTo self.old.names name.now (taken_by place.now) }
        ensures { IfOk result (λ answer.
            Acts self.old (command.Put place.now name.now) answer self.new) }
    {
        let at = self.place(place);
        let slot = self.slot(name);
        at.put(&mut self.heap, Some(slot))?;
        self.names.unbind(name);
        Ok(Said::Nothing)
    }

    /// The place holds null.
    pub(crate) fn clear(&mut self, place: &TextPlace) -> Result<Said, OutOfMemory>
        requires range { IsPlaceInRange (scope_of self.old).sizes place.now }
        requires needs { AreMet self.old.names (place_needs place.now) }
        ensures { IfOk result (λ answer. Acts self.old (command.Clear place.now) answer self.new) }
    {
        let at = self.place(place);
        at.put(&mut self.heap, None)?;
        Ok(Said::Nothing)
    }

    /// A reference to what the place holds.
    pub(crate) fn load(&mut self, place: &TextPlace, new: &Name) -> Result<Said, OutOfMemory>
        requires range { IsPlaceInRange (scope_of self.old).sizes place.now }
        requires needs { AreMet self.old.names (place_needs place.now) }
        requires unbound { bound self.old.names new.now ≡ None }
        ensures { IfOk result (λ answer.
            Acts self.old (command.Load place.now new.now) answer self.new) }
    {
        match self.place(place) {
            HeapPlace::Strong(at) => self.load_strong(at, new),
            HeapPlace::Weak(at) => self.load_weak(at, new),
        }
    }

    fn load_strong(&mut self, at: PlainPlace, new: &Name) -> Result<Said, OutOfMemory>
        requires opened { IsOpen self.old.plain 0 (strong_place at) }
        requires unbound { bound self.old.names new.now ≡ None }
        ensures { IfOk result (λ answer.
            LoadsStrong self.old (strong_place at) new.now answer self.new) }
    {
        let Some(hand) = self.heap.load(at)? else {
            return Ok(Said::Null);
        };
        bind(
            self.alloc,
            &mut self.heap,
            &mut self.names,
            new,
            Handle::Strong(hand),
        )?;
        Ok(Said::Loaded)
    }

    fn load_weak(&mut self, at: PlainWeakPlace, new: &Name) -> Result<Said, OutOfMemory>
        requires opened { IsOpen self.old.plain 0 (weak_place at) }
        requires unbound { bound self.old.names new.now ≡ None }
        ensures { IfOk result (λ answer.
            LoadsWeak self.old (weak_place at) new.now answer self.new) }
    {
        let Some(hand) = self.heap.load_weak(at)? else {
            return Ok(Said::Null);
        };
        bind(
            self.alloc,
            &mut self.heap,
            &mut self.names,
            new,
            Handle::Weak(hand),
        )?;
        Ok(Said::Loaded)
    }

    /// The place holds what the new name was bound to, or null, if it held the object of the old one, or null.
    pub(crate) fn replace(
        &mut self,
        place: &TextPlace,
        old: &Option<Name>,
        new: &Option<Name>,
    ) -> Result<Said, OutOfMemory>
        requires range { IsPlaceInRange (scope_of self.old).sizes place.now }
        requires strong { is_weak_place place.now ≡ false }
        requires needs { AreMet self.old.names (place_needs place.now) }
        requires expected { AreMet self.old.names (need_of old.now is_firm) }
        requires given { AreMet self.old.names (need_of new.now is_strong) }
        ensures { IfOk result (λ answer.
            Acts self.old (command.Replace place.now old.now new.now) answer self.new) }
    {
        let HeapPlace::Strong(at) = self.place(place) else {
            unreachable!()
        };
        let expected = self.names.slot_if_some(old);
        let hand = self.hand_if_some(new);
        match self.heap.replace(at, expected, hand) {
            Ok(true) => {
                self.names.unbind_if_some(new);
                Ok(Said::Done)
            }
            Ok(false) => Ok(Said::Lost),
            Err(_back) => Err(OutOfMemory),
        }
    }
}
