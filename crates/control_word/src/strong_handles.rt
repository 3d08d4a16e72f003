//! Strong references of a seat: one more, and one fewer.
ghost use Rattle.std.specs.Prelude.{◌≡◌, ◌<◌, ◌≤◌, ◌+◌, ◌↔◌, [], ◌∷◌, IfOk, IsErr, OnErr};
ghost use Rattle.counted_handles.specs.plain_state.declared.slot.SlotId.{SlotId};
ghost use Rattle.counted_handles.specs.plain_state.Lists.{times};
ghost use Rattle.acquire_retire.specs.core_events.Steps.{HasRoom};
ghost use Rattle.acquire_retire.specs.Calls.{IsSameView, same_view};
ghost use Rattle.control_word.specs.Calls.{DropsStrong, GainsStrong, without_strong};
ghost use Rattle.control_word.specs.Moves.{KnowsStill};
ghost use Rattle.control_word.specs.Resting.{IsAtRest, IsSpent};

use acquire_retire::{Domain, Outcome, Protocol, Seat, Still};
use counted_handles::{Spent, Strong};

/// One more strong reference to the object of one that the seat owns. `Spent` exactly where the seat has used all adds
/// of its quota, and then nothing has changed. Each handle that the seat owned it owns still. One step, and one add.
pub fn copy_strong<P: Protocol>(
    domain: &Domain<P>,
    seat: &mut Seat<P>,
    handle: &Strong,
) -> Result<Strong, Spent>
    requires rest { IsAtRest domain.now seat.old }
    requires owned { 0 < times handle.now.slot seat.old.view.core.owned }
    ensures spent { IsErr result ↔ IsSpent seat.old.view.core }
    ensures refused { OnErr result (seat.new ≡ seat.old) }
    ensures copied { IfOk result (λ more. (more.slot ≡ handle.now.slot)
        × GainsStrong P.Kind.fits domain.now same_view IsSameView handle.now.slot
        seat.old seat.new) }
    ensures owned { IfOk result (λ more. 0 < times more.slot seat.new.view.core.owned) }
    ensures others { (s : SlotId)
        → times s seat.old.view.core.owned ≤ times s seat.new.view.core.owned }
    ensures client { seat.new.view.client ≡ seat.old.view.client }
    ensures notes { seat.new.view.core.notes ≡ seat.old.view.core.notes }
    ensures objects { KnowsStill seat.old.view.core seat.old seat.new }
    ensures room { HasRoom seat.old.view.core → HasRoom seat.new.view.core }
    ensures rest { IsAtRest domain.now seat.new }
{
    if domain.adds_left(seat) == 0 {
        return Err(Spent);
    }
    let slot = handle.slot();
    domain.add(seat, slot, Still);
    Ok(Strong::of(slot))
}

/// Gives up a reference that the seat owns, at once. Where it was the last strong one the object ends, and its slot
/// joins the seat's dying list, unless another seat has been quicker. Each other handle the seat owns still. At most
/// three steps.
#[inline(always)]
pub fn drop_strong<P: Protocol>(domain: &Domain<P>, seat: &mut Seat<P>, handle: Strong)
    requires rest { IsAtRest domain.now seat.old }
    requires owned { 0 < times handle.slot seat.old.view.core.owned }
    ensures dropped { DropsStrong P.Kind.fits domain.now handle.slot seat.old seat.new }
    ensures others { (s : SlotId) → times s seat.new.view.core.owned
        + times s (handle.slot ∷ []) ≡ times s seat.old.view.core.owned }
    ensures client { seat.new.view.client ≡ seat.old.view.client }
    ensures notes { seat.new.view.core.notes ≡ seat.old.view.core.notes }
    ensures objects { KnowsStill (without_strong handle.slot seat.old.view.core)
        seat.old seat.new }
    ensures room { HasRoom seat.old.view.core → HasRoom seat.new.view.core }
    ensures rest { IsAtRest domain.now seat.new }
{
    if let Outcome::Zeroed = domain.drop(seat, handle.slot()) {
        if let Outcome::Help = domain.finish(seat) {
            domain.take(seat);
        }
    }
}
