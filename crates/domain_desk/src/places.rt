//! Places: put, cleared, loaded, replaced.
ghost use Rattle.std.specs.Prelude.{◌≡◌, false, IfOk, OnOk, None, []};
ghost use Rattle.script_desk.specs.plain_state.declared.slot.Kind.TheVariants as kind;
ghost use Rattle.script_desk.specs.plain_state.Places.{IsOpen, place_kind};
ghost use Rattle.script_desk.specs.script_lines.declared.command.Command.TheVariants as command;
ghost use Rattle.script_desk.specs.declared.said.Said.TheVariants as said;
ghost use Rattle.script_desk.specs.Desks.{bound};
ghost use Rattle.script_desk.specs.Effects.{Acts, LoadsStrong, LoadsWeak};
ghost use Rattle.script_desk.specs.Faults.{IsPlaceInRange, is_weak_place, need_of, place_needs, taken_by};
ghost use Rattle.script_desk.specs.Handles.{is_firm, is_strong};
ghost use Rattle.script_desk.specs.Places.{AreMet, IsBoundTo};
ghost use Rattle.lone_heap.specs.Trails.{Shows};
ghost use Rattle.domain_desk.specs.Marks.{ShowsCommand};
ghost use Rattle.domain_desk.specs.Desks.{core_of, desk_of, IsKept, plain_of, sizes_of};
ghost use Rattle.domain_desk.specs.Runs.{Begins};

use crate::desk::DomainDesk;
use lone_heap::{load, put, try_put};
use script_desk::{
    EventPlace, Hand, Handle, Name, OutOfMemory, Said, TextPlace, WeakHand, place_of,
};

impl DomainDesk {
    /// The place holds what the name was bound to.
    pub(crate) fn put(&mut self, place: &TextPlace, name: &Name)
        requires kept { IsKept self.old }
        requires range { IsPlaceInRange (sizes_of self.old) place.now }
        requires needs { AreMet self.old.names (place_needs place.now) }
        requires bound { IsBoundTo self.old.names name.now (taken_by place.now) }
        ensures begins { Begins (desk_of self.old) (command.Put place.now name.now) said.Nothing
            (desk_of self.new) }
        ensures shows { ShowsCommand (command.Put place.now name.now) said.Nothing
            (core_of self.old) (core_of self.new) }
        ensures domain { self.new.domain ≡ self.old.domain }
        ensures kept { IsKept self.new }
    {
        let at = place_of(&self.names, self.sizes(), place);
        let slot = self.names.slot(name);
        self.names.unbind(name);
        put(&self.domain, &mut self.seat, at, Some(slot));
    }

    /// The place holds null.
    pub(crate) fn clear(&mut self, place: &TextPlace)
        requires kept { IsKept self.old }
        requires range { IsPlaceInRange (sizes_of self.old) place.now }
        requires needs { AreMet self.old.names (place_needs place.now) }
        ensures begins { Begins (desk_of self.old) (command.Clear place.now) said.Nothing
            (desk_of self.new) }
        ensures shows { ShowsCommand (command.Clear place.now) said.Nothing
            (core_of self.old) (core_of self.new) }
        ensures domain { self.new.domain ≡ self.old.domain }
        ensures kept { IsKept self.new }
    {
        let at = place_of(&self.names, self.sizes(), place);
        put(&self.domain, &mut self.seat, at, None);
    }

    /// A reference to what the place holds.
    pub(crate) fn load(&mut self, place: &TextPlace, new: &Name) -> Result<Said, OutOfMemory>
        requires kept { IsKept self.old }
        requires range { IsPlaceInRange (sizes_of self.old) place.now }
        requires needs { AreMet self.old.names (place_needs place.now) }
        requires unbound { bound self.old.names new.now ≡ None }
        ensures acts { IfOk result (λ answer. Acts (desk_of self.old)
            (command.Load place.now new.now) answer (desk_of self.new)) }
        ensures shows { IfOk result (λ answer.
            ShowsCommand (command.Load place.now new.now) answer
            (core_of self.old) (core_of self.new)) }
        ensures domain { self.new.domain ≡ self.old.domain }
        ensures kept { OnOk result (IsKept self.new) }
    {
        let at = place_of(&self.names, self.sizes(), place);
        match place {
            TextPlace::Cell(_) | TextPlace::Field(_, _) => self.load_strong(at, new),
            TextPlace::WeakCell(_) | TextPlace::WeakField(_) => self.load_weak(at, new),
        }
    }

    fn load_strong(&mut self, at: EventPlace, new: &Name) -> Result<Said, OutOfMemory>
        requires kept { IsKept self.old }
        requires opened { IsOpen (plain_of self.old) 0 at }
        requires strong { place_kind at ≡ kind.Strong }
        requires unbound { bound self.old.names new.now ≡ None }
        ensures loads { IfOk result (λ answer.
            LoadsStrong (desk_of self.old) at new.now answer (desk_of self.new)) }
        ensures trail { OnOk result (Shows [] (core_of self.old) (core_of self.new)) }
        ensures domain { self.new.domain ≡ self.old.domain }
        ensures kept { OnOk result (IsKept self.new) }
    {
        let Ok(found) = load(&self.domain, &mut self.seat, at) else {
            return Err(OutOfMemory);
        };
        let Some(slot) = found else {
            return Ok(Said::Null);
        };
        let hand = Hand::of(slot);
        let Ok(()) = self.names.bind(self.alloc, new, Handle::Strong(hand)) else {
            return Err(OutOfMemory);
        };
        Ok(Said::Loaded)
    }

    fn load_weak(&mut self, at: EventPlace, new: &Name) -> Result<Said, OutOfMemory>
        requires kept { IsKept self.old }
        requires opened { IsOpen (plain_of self.old) 0 at }
        requires weak { place_kind at ≡ kind.Weak }
        requires unbound { bound self.old.names new.now ≡ None }
        ensures loads { IfOk result (λ answer.
            LoadsWeak (desk_of self.old) at new.now answer (desk_of self.new)) }
        ensures trail { OnOk result (Shows [] (core_of self.old) (core_of self.new)) }
        ensures domain { self.new.domain ≡ self.old.domain }
        ensures kept { OnOk result (IsKept self.new) }
    {
        let Ok(found) = load(&self.domain, &mut self.seat, at) else {
            return Err(OutOfMemory);
        };
        let Some(slot) = found else {
            return Ok(Said::Null);
        };
        let hand = WeakHand::of(slot);
        let Ok(()) = self.names.bind(self.alloc, new, Handle::Weak(hand)) else {
            return Err(OutOfMemory);
        };
        Ok(Said::Loaded)
    }

    /// The place holds what the new name was bound to, or null, if it held the object of the old one, or null.
    pub(crate) fn replace(
        &mut self,
        place: &TextPlace,
        old: &Option<Name>,
        new: &Option<Name>,
    ) -> Said
        requires kept { IsKept self.old }
        requires range { IsPlaceInRange (sizes_of self.old) place.now }
        requires strong { is_weak_place place.now ≡ false }
        requires needs { AreMet self.old.names (place_needs place.now) }
        requires expected { AreMet self.old.names (need_of old.now is_firm) }
        requires given { AreMet self.old.names (need_of new.now is_strong) }
        ensures begins { Begins (desk_of self.old) (command.Replace place.now old.now new.now)
            result (desk_of self.new) }
        ensures shows { ShowsCommand (command.Replace place.now old.now new.now) result
            (core_of self.old) (core_of self.new) }
        ensures domain { self.new.domain ≡ self.old.domain }
        ensures kept { IsKept self.new }
    {
        let at = place_of(&self.names, self.sizes(), place);
        let expected = self.names.slot_if_some(old);
        let slot = self.names.slot_if_some(new);
        if !try_put(&self.domain, &mut self.seat, at, expected, slot) {
            return Said::Lost;
        }
        self.names.unbind_if_some(new);
        Said::Done
    }
}
