//! Snapshots: taken, and kept by a reference.
ghost use Rattle.std.specs.Prelude.{◌≡◌, false, IfOk, OnOk, None};
ghost use Rattle.script_desk.specs.script_lines.declared.command.Command.TheVariants as command;
ghost use Rattle.script_desk.specs.Desks.{bound};
ghost use Rattle.script_desk.specs.Effects.{Acts, snapped};
ghost use Rattle.script_desk.specs.Faults.{IsPlaceInRange, is_weak_place, place_needs};
ghost use Rattle.script_desk.specs.Handles.{is_snapshot};
ghost use Rattle.script_desk.specs.Places.{AreMet, IsBoundTo};
ghost use Rattle.domain_desk.specs.Marks.{ShowsCommand};
ghost use Rattle.domain_desk.specs.Desks.{core_of, desk_of, IsKept, sizes_of};

use crate::desk::DomainDesk;
use lone_heap::{keep, snap};
use script_desk::{Hand, Handle, Name, OutOfMemory, Said, SnapHand, TextPlace, place_of};

/// What a snapshot answers that was taken.
fn taken(counted: bool) -> Said
    ensures { result ≡ snapped counted }
{
    if counted {
        Said::Counted
    } else {
        Said::Snapped
    }
}

impl DomainDesk {
    /// A snapshot of what the strong place holds.
    pub(crate) fn snap(&mut self, place: &TextPlace, new: &Name) -> Result<Said, OutOfMemory>
        requires kept { IsKept self.old }
        requires range { IsPlaceInRange (sizes_of self.old) place.now }
        requires strong { is_weak_place place.now ≡ false }
        requires needs { AreMet self.old.names (place_needs place.now) }
        requires unbound { bound self.old.names new.now ≡ None }
        ensures acts { IfOk result (λ answer. Acts (desk_of self.old)
            (command.Snap place.now new.now) answer (desk_of self.new)) }
        ensures shows { IfOk result (λ answer.
            ShowsCommand (command.Snap place.now new.now) answer
            (core_of self.old) (core_of self.new)) }
        ensures domain { self.new.domain ≡ self.old.domain }
        ensures kept { OnOk result (IsKept self.new) }
    {
        let at = place_of(&self.names, self.sizes(), place);
        let Ok(found) = snap(&self.domain, &mut self.seat, &mut self.words, at) else {
            return Err(OutOfMemory);
        };
        let Some((slot, counted)) = found else {
            return Ok(Said::Null);
        };
        let hand = SnapHand::of(slot, counted);
        let Ok(()) = self.names.bind(self.alloc, new, Handle::Snapshot(hand)) else {
            return Err(OutOfMemory);
        };
        Ok(taken(counted))
    }

    /// A strong reference to the object of a snapshot.
    pub(crate) fn keep(&mut self, name: &Name, new: &Name) -> Result<Said, OutOfMemory>
        requires kept { IsKept self.old }
        requires bound { IsBoundTo self.old.names name.now is_snapshot }
        requires unbound { bound self.old.names new.now ≡ None }
        ensures acts { IfOk result (λ answer. Acts (desk_of self.old)
            (command.Keep name.now new.now) answer (desk_of self.new)) }
        ensures shows { IfOk result (λ answer.
            ShowsCommand (command.Keep name.now new.now) answer
            (core_of self.old) (core_of self.new)) }
        ensures domain { self.new.domain ≡ self.old.domain }
        ensures kept { OnOk result (IsKept self.new) }
    {
        let slot = self.names.slot(name);
        let Ok(more) = keep(&self.domain, &mut self.seat, slot) else {
            return Err(OutOfMemory);
        };
        let hand = Hand::of(more.slot());
        let Ok(()) = self.names.bind(self.alloc, new, Handle::Strong(hand)) else {
            return Err(OutOfMemory);
        };
        Ok(Said::Nothing)
    }
}
