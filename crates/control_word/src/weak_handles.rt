//! Weak references of a seat: one more, and one fewer.
ghost use Rattle.std.specs.Prelude.{◌≡◌, ◌<◌, ◌↔◌, IfOk, IsErr, OnErr};
ghost use Rattle.counted_handles.specs.plain_state.Lists.{times};
ghost use Rattle.acquire_retire.specs.core_events.Views.{Holds};
ghost use Rattle.acquire_retire.specs.core_events.Steps.{HasRoom};
ghost use Rattle.control_word.specs.Calls.{DropsWeak, GainsWeak, without_weak};
ghost use Rattle.control_word.specs.Moves.{KnowsStill};
ghost use Rattle.control_word.specs.Resting.{IsAtRest, IsSpent};

use acquire_retire::{Domain, Outcome, Protocol, Seat, SlotId};
use counted_handles::{Spent, Strong, Weak};

/// One weak reference to the slot of a strong one. `Spent` exactly where the seat has used all adds of its quota, and
/// then nothing has changed. One step, and one add.
pub fn weaken<P: Protocol>(
    domain: &Domain<P>,
    seat: &mut Seat<P>,
    handle: &Strong,
) -> Result<Weak, Spent>
    requires rest { IsAtRest domain.now seat.old }
    requires owned { 0 < times handle.now.slot seat.old.view.core.owned }
    ensures spent { IsErr result ↔ IsSpent seat.old.view.core }
    ensures refused { OnErr result (seat.new ≡ seat.old) }
    ensures gained { IfOk result (λ weak. (weak.slot ≡ handle.now.slot)
        × GainsWeak P.Kind.fits domain.now handle.now.slot seat.old seat.new) }
    ensures owned { IfOk result (λ weak. 0 < times weak.slot seat.new.view.core.weaks) }
    ensures client { seat.new.view.client ≡ seat.old.view.client }
    ensures notes { seat.new.view.core.notes ≡ seat.old.view.core.notes }
    ensures objects { KnowsStill seat.old.view.core seat.old seat.new }
    ensures room { HasRoom seat.old.view.core → HasRoom seat.new.view.core }
    ensures rest { IsAtRest domain.now seat.new }
{
    gain_weak(domain, seat, handle.slot())
}

/// One more weak reference to the slot of one that the seat owns. `Spent` exactly where the seat has used all adds of
/// its quota, and then nothing has changed. One step, and one add.
pub fn copy_weak<P: Protocol>(
    domain: &Domain<P>,
    seat: &mut Seat<P>,
    weak: &Weak,
) -> Result<Weak, Spent>
    requires rest { IsAtRest domain.now seat.old }
    requires owned { 0 < times weak.now.slot seat.old.view.core.weaks }
    ensures spent { IsErr result ↔ IsSpent seat.old.view.core }
    ensures refused { OnErr result (seat.new ≡ seat.old) }
    ensures gained { IfOk result (λ more. (more.slot ≡ weak.now.slot)
        × GainsWeak P.Kind.fits domain.now weak.now.slot seat.old seat.new) }
    ensures owned { IfOk result (λ more. 0 < times more.slot seat.new.view.core.weaks) }
    ensures client { seat.new.view.client ≡ seat.old.view.client }
    ensures notes { seat.new.view.core.notes ≡ seat.old.view.core.notes }
    ensures objects { KnowsStill seat.old.view.core seat.old seat.new }
    ensures room { HasRoom seat.old.view.core → HasRoom seat.new.view.core }
    ensures rest { IsAtRest domain.now seat.new }
{
    gain_weak(domain, seat, weak.slot())
}

/// One weak reference more to a slot that the seat holds.
fn gain_weak<P: Protocol>(
    domain: &Domain<P>,
    seat: &mut Seat<P>,
    slot: SlotId,
) -> Result<Weak, Spent>
    requires rest { IsAtRest domain.now seat.old }
    requires holds { Holds seat.old.view.core slot }
    ensures spent { IsErr result ↔ IsSpent seat.old.view.core }
    ensures refused { OnErr result (seat.new ≡ seat.old) }
    ensures gained { IfOk result (λ weak. (weak.slot ≡ slot)
        × GainsWeak P.Kind.fits domain.now slot seat.old seat.new) }
    ensures owned { IfOk result (λ weak. 0 < times weak.slot seat.new.view.core.weaks) }
    ensures client { seat.new.view.client ≡ seat.old.view.client }
    ensures notes { seat.new.view.core.notes ≡ seat.old.view.core.notes }
    ensures objects { KnowsStill seat.old.view.core seat.old seat.new }
    ensures room { HasRoom seat.old.view.core → HasRoom seat.new.view.core }
    ensures rest { IsAtRest domain.now seat.new }
{
    if domain.adds_left(seat) == 0 {
        return Err(Spent);
    }
    domain.wadd(seat, slot);
    Ok(Weak::of(slot))
}

/// Gives up a weak reference that the seat owns, at once. Where it was the slot's last one the slot is free to be
/// claimed again. At most two steps.
pub fn drop_weak<P: Protocol>(domain: &Domain<P>, seat: &mut Seat<P>, weak: Weak)
    requires rest { IsAtRest domain.now seat.old }
    requires owned { 0 < times weak.slot seat.old.view.core.weaks }
    ensures dropped { DropsWeak P.Kind.fits domain.now weak.slot seat.old seat.new }
    ensures client { seat.new.view.client ≡ seat.old.view.client }
    ensures notes { seat.new.view.core.notes ≡ seat.old.view.core.notes }
    ensures objects { KnowsStill (without_weak weak.slot seat.old.view.core) seat.old seat.new }
    ensures room { HasRoom seat.old.view.core → HasRoom seat.new.view.core }
    ensures rest { IsAtRest domain.now seat.new }
{
    if let Outcome::Last = domain.wdrop(seat, weak.slot()) {
        domain.free(seat);
    }
}
