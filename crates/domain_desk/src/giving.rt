//! Handles are given up, one by its name, and all of them at the end.
ghost use Rattle.std.specs.Prelude.{◌≡◌, []};
ghost use Rattle.script_desk.specs.plain_state.State.{seat_at};
ghost use Rattle.script_desk.specs.plain_state.Steps.{Does};
ghost use Rattle.script_desk.specs.plain_settling.Settling.{TidiesTo};
ghost use Rattle.script_desk.specs.plain_store.Calls.{HasSnapshot, ending};
ghost use Rattle.script_desk.specs.plain_store.Settling.{IsSettled};
ghost use Rattle.script_desk.specs.deleter.Weighing.{Weighs};
ghost use Rattle.lone_heap.specs.Lone.{IsReady, ThenTidies, known_plain};
ghost use Rattle.lone_heap.specs.Words.{AreNoted};
ghost use Rattle.script_desk.specs.Desks.{without_handles};
ghost use Rattle.script_desk.specs.Handles.{is_any};
ghost use Rattle.script_desk.specs.Holding.{HasHandle, giving};
ghost use Rattle.script_desk.specs.Kinds.{IsScriptPayload, script_weight};
ghost use Rattle.script_desk.specs.Places.{IsBoundTo};
ghost use Rattle.domain_desk.specs.Closing.{HasNoHandles};
ghost use Rattle.lone_heap.specs.Trails.{Shows};
ghost use Rattle.domain_desk.specs.Desks.{core_of, IsKept, desk_of, plain_of};
ghost use Rattle.domain_desk.specs.Runs.{GivesNamed};

use crate::desk::DomainDesk;
use lone_heap::{Domain, Seat, Strong, Weak, Words, end, give, give_weak, settle_all};
use script_desk::{Deleter, Handle, Name, NoLaw, ScriptKind, SnapHand, counted};

/// Ends the snapshot: its word protects nothing then, or where it is counted its reference is given up.
fn end_snapshot(
    domain: &Domain<NoLaw<ScriptKind>>,
    seat: &mut Seat<NoLaw<ScriptKind>>,
    words: &mut Words,
    hand: SnapHand,
)
    requires ready { IsReady domain.now seat.old }
    requires noted { AreNoted words.old seat.old }
    requires has { HasSnapshot (known_plain domain.now seat.old) hand.0 hand.1 }
    ensures trail { Shows [] seat.old.view.core seat.new.view.core }
    ensures ends { ThenTidies (Does (known_plain domain.now seat.old) 0 (ending hand.0 hand.1) 0)
        (known_plain domain.now seat.new) }
    ensures noted { AreNoted words.new seat.new }
    ensures ready { IsReady domain.now seat.new }
{
    if counted(&hand) {
        give(domain, seat, Strong::of(hand.slot()));
    } else {
        end(domain, seat, words, hand.slot());
    }
}

/// Gives the handle up.
fn give_up(
    domain: &Domain<NoLaw<ScriptKind>>,
    seat: &mut Seat<NoLaw<ScriptKind>>,
    words: &mut Words,
    handle: Handle,
)
    requires ready { IsReady domain.now seat.old }
    requires noted { AreNoted words.old seat.old }
    requires has { HasHandle (known_plain domain.now seat.old) handle }
    ensures trail { Shows [] seat.old.view.core seat.new.view.core }
    ensures gives { ThenTidies (Does (known_plain domain.now seat.old) 0 (giving handle) 0)
        (known_plain domain.now seat.new) }
    ensures noted { AreNoted words.new seat.new }
    ensures ready { IsReady domain.now seat.new }
{
    match handle {
        Handle::Strong(hand) => give(domain, seat, Strong::of(hand.slot())),
        Handle::Weak(hand) => give_weak(domain, seat, Weak::of(hand.slot())),
        Handle::Snapshot(hand) => end_snapshot(domain, seat, words, hand),
    }
}

impl DomainDesk {
    /// What the name is bound to is given up, and the name isn't bound any more.
    pub(crate) fn give(&mut self, name: &Name)
        requires kept { IsKept self.old }
        requires bound { IsBoundTo self.old.names name.now is_any }
        ensures gives { GivesNamed (desk_of self.old) name.now (desk_of self.new) }
        ensures trail { Shows [] (core_of self.old) (core_of self.new) }
        ensures domain { self.new.domain ≡ self.old.domain }
        ensures kept { IsKept self.new }
    {
        match self.names.unbind(name) {
            Some(handle) => give_up(&self.domain, &mut self.seat, &mut self.words, handle),
            None => unreachable!(),
        }
    }

    /// Gives up every handle to which a name is bound, lets the seat settle, and answers the domain and its seat. The
    /// seat has no handle then, and the heap is as if all had been given up at once and it had been tidied after that,
    /// until nothing more may go. The cost is that of a drop for each name, and of a settle.
    pub fn close<F: Fn(&[u64; 16]) -> u64>(
        self,
        weigh: &Deleter<ScriptKind, F>,
    ) -> (Domain<NoLaw<ScriptKind>>, Seat<NoLaw<ScriptKind>>)
        requires kept { IsKept self }
        requires weighs { Weighs IsScriptPayload script_weight F.Fn weigh.now }
        ensures tidies { TidiesTo (without_handles (plain_of self))
            (known_plain result.0 result.1) }
        ensures settled { IsSettled (known_plain result.0 result.1) }
        ensures none { HasNoHandles (seat_at (known_plain result.0 result.1) 0) }
        ensures trail { Shows [] (core_of self) result.1.view.core }
        ensures domain { result.0 ≡ self.domain }
        ensures ready { IsReady result.0 result.1 }
    {
        let DomainDesk {
            alloc: _,
            domain,
            mut seat,
            mut words,
            mut names,
            makers: _,
            makes: _,
            cells: _,
            weak_cells: _,
        } = self;
        while let Some(handle) = names.pop() {
            give_up(&domain, &mut seat, &mut words, handle);
        }
        settle_all(&domain, &mut seat, weigh);
        (domain, seat)
    }
}
