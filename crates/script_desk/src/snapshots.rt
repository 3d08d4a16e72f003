//! Snapshots: taken, and kept by a reference.
ghost use Rattle.std.specs.Prelude.{◌≡◌, false, IfOk, None};
ghost use Rattle.script_lines.specs.declared.command.Command.TheVariants as command;
ghost use Rattle.script_desk.specs.Desks.{bound, scope_of};
ghost use Rattle.script_desk.specs.Effects.{Acts};
ghost use Rattle.script_desk.specs.Faults.{IsPlaceInRange, is_weak_place, place_needs};
ghost use Rattle.script_desk.specs.Handles.{is_snapshot};
ghost use Rattle.script_desk.specs.Places.{AreMet, IsBoundTo};

use crate::binding::{bind, keep_snapshot};
use crate::desk::Desk;
use crate::handle::Handle;
use crate::place::HeapPlace;
use crate::said::Said;
use plain_settling::counted;
use script_lines::{Name, OutOfMemory, TextPlace};

impl Desk {
    /// A snapshot of what the strong place holds.
    pub(crate) fn snap(&mut self, place: &TextPlace, new: &Name) -> Result<Said, OutOfMemory>
        requires range { IsPlaceInRange (scope_of self.old).sizes place.now }
        requires strong { is_weak_place place.now ≡ false }
        requires needs { AreMet self.old.names (place_needs place.now) }
        requires unbound { bound self.old.names new.now ≡ None }
        ensures { IfOk result (λ answer.
            Acts self.old (command.Snap place.now new.now) answer self.new) }
    {
        let HeapPlace::Strong(at) = self.place(place) else {
            unreachable!()
        };
        let Some(hand) = self.heap.snap(at)? else {
            return Ok(Said::Null);
        };
        let said = if counted(&hand) {
            Said::Counted
        } else {
            Said::Snapped
        };
        bind(
            self.alloc,
            &mut self.heap,
            &mut self.names,
            new,
            Handle::Snapshot(hand),
        )?;
        Ok(said)
    }

    /// A strong reference to the object of a snapshot.
    pub(crate) fn keep(&mut self, name: &Name, new: &Name) -> Result<Said, OutOfMemory>
        requires bound { IsBoundTo self.old.names name.now is_snapshot }
        requires unbound { bound self.old.names new.now ≡ None }
        ensures { IfOk result (λ answer.
            Acts self.old (command.Keep name.now new.now) answer self.new) }
    {
        let hand = keep_snapshot(&mut self.heap, &self.names, name)?;
        bind(
            self.alloc,
            &mut self.heap,
            &mut self.names,
            new,
            Handle::Strong(hand),
        )?;
        Ok(Said::Nothing)
    }
}
