//! What becomes of a snapshot: a reference of its own, or its end.
ghost use Rattle.std.specs.Prelude.{◌≡◌, ◌<◌, ◌↔◌, IfOk, IsErr, OnErr};
ghost use Rattle.protected_loads.specs.plain_state.Lists.{times};
ghost use Rattle.protected_loads.specs.core_events.Steps.{HasRoom};
ghost use Rattle.protected_loads.specs.acquire_retire.Calls.{IsSameView, same_view};
ghost use Rattle.protected_loads.specs.control_word.Calls.{GainsStrong};
ghost use Rattle.protected_loads.specs.control_word.Moves.{KnowsStill};
ghost use Rattle.protected_loads.specs.control_word.Resting.{IsAtRest, IsSpent};
ghost use Rattle.snapshot_ptr.specs.Ending.{Ends, KeepsOthers, without_snapshot};
ghost use Rattle.snapshot_ptr.specs.Handles.{IsUnder, StaysUnder, notes_without};

use crate::handle::Snapshot;
use atomic_shared::Strong;
use protected_loads::{Domain, Protocol, Seat, Spent, Still, drop_strong};

/// A strong reference to the object of a snapshot, which stays. It always counts, since the object lives. `Spent`
/// exactly where the seat has used all adds of its quota, and then nothing has changed. One step, and one add.
pub fn keep<P: Protocol>(
    domain: &Domain<P>,
    seat: &mut Seat<P>,
    snapshot: &Snapshot,
) -> Result<Strong, Spent>
    requires rest { IsAtRest domain.now seat.old }
    requires under { IsUnder snapshot.now seat.old.view.core }
    ensures spent { IsErr result ↔ IsSpent seat.old.view.core }
    ensures refused { OnErr result (seat.new ≡ seat.old) }
    ensures kept { IfOk result (λ strong. (strong.slot ≡ snapshot.now.slot)
        × GainsStrong P.Kind.fits domain.now same_view IsSameView snapshot.now.slot
        seat.old seat.new) }
    ensures owned { IfOk result (λ strong. 0 < times strong.slot seat.new.view.core.owned) }
    ensures under { StaysUnder seat.old.view.core seat.new.view.core }
    ensures client { seat.new.view.client ≡ seat.old.view.client }
    ensures notes { seat.new.view.core.notes ≡ seat.old.view.core.notes }
    ensures objects { KnowsStill seat.old.view.core seat.old seat.new }
    ensures room { HasRoom seat.old.view.core → HasRoom seat.new.view.core }
    ensures rest { IsAtRest domain.now seat.new }
{
    if domain.adds_left(seat) == 0 {
        return Err(Spent);
    }
    let slot = snapshot.slot();
    domain.add(seat, slot, Still);
    Ok(Strong::of(slot))
}

/// Ends a snapshot. The announcement word of an uncounted one stands for nothing then, in one step; the reference of a
/// counted one is given up as `drop_strong` does, in at most three.
pub fn end<P: Protocol>(domain: &Domain<P>, seat: &mut Seat<P>, snapshot: Snapshot)
    requires rest { IsAtRest domain.now seat.old }
    requires under { IsUnder snapshot seat.old.view.core }
    ensures ended { Ends P.Kind.fits domain.now snapshot seat.old seat.new }
    ensures others { KeepsOthers snapshot seat.old.view.core seat.new.view.core }
    ensures client { seat.new.view.client ≡ seat.old.view.client }
    ensures notes { seat.new.view.core.notes
        ≡ notes_without snapshot seat.old.view.core.notes }
    ensures objects { KnowsStill (without_snapshot snapshot seat.old.view.core)
        seat.old seat.new }
    ensures room { HasRoom seat.old.view.core → HasRoom seat.new.view.core }
    ensures rest { IsAtRest domain.now seat.new }
{
    match snapshot.word() {
        Some(word) => {
            domain.release(seat, word);
        }
        None => drop_strong(domain, seat, Strong::of(snapshot.slot())),
    }
}
