//! Weak references that a seat counts and gives up.
ghost use Rattle.std.specs.Prelude.{◌≡◌, ◌<◌, ◌↔◌, IfOk, IsErr, OnErr};
ghost use Rattle.control_word.specs.plain_state.Lists.{times};
ghost use Rattle.control_word.specs.core_events.Steps.{HasRoom};
ghost use Rattle.control_word.specs.Calls.{DropsWeak, GainsWeak, without_weak};
ghost use Rattle.control_word.specs.Moves.{KnowsStill};
ghost use Rattle.control_word.specs.Resting.{IsAtRest, IsSpent};
ghost use Rattle.part_calls.specs.Parts.{HasBeside, as_part, seen_by};

use control_word::{Domain, Protocol, Seat, Spent, Strong, Weak};
use part_calls::Part;

/// One weak reference to the slot of a strong one that the seat owns. `Spent` exactly where the seat has used all adds
/// of its quota, and then nothing has changed. One step, and one add.
pub fn weaken<Q: Protocol, S, P: Part<Q, S>>(
    domain: &Domain<P>,
    seat: &mut Seat<P>,
    handle: &Strong,
) -> Result<Weak, Spent>
    requires rest { IsAtRest domain.now seat.old }
    requires owned { 0 < times handle.now.slot seat.old.view.core.owned }
    ensures spent { IsErr result ↔ IsSpent seat.old.view.core }
    ensures refused { OnErr result (seat.new ≡ seat.old) }
    ensures gained { IfOk result (λ weak. (weak.slot ≡ handle.now.slot)
        × GainsWeak P.Kind.fits (as_part P.part domain.now) handle.now.slot
        (seen_by P.seen seat.old) (seen_by P.seen seat.new)) }
    ensures owned { IfOk result (λ weak. 0 < times weak.slot seat.new.view.core.weaks) }
    ensures client { seat.new.view.client ≡ seat.old.view.client }
    ensures seen { P.seen seat.new.view.client ≡ P.seen seat.old.view.client }
    ensures beside { HasBeside P.with_seen Q.gone seat.old seat.new }
    ensures notes { seat.new.view.core.notes ≡ seat.old.view.core.notes }
    ensures objects { KnowsStill seat.old.view.core seat.old seat.new }
    ensures room { HasRoom seat.old.view.core → HasRoom seat.new.view.core }
    ensures rest { IsAtRest domain.now seat.new }
{
    control_word::weaken(domain, seat, handle)
}

/// One more weak reference to the slot of one that the seat owns. `Spent` exactly where the seat has used all adds of
/// its quota, and then nothing has changed. One step, and one add.
pub fn copy_weak<Q: Protocol, S, P: Part<Q, S>>(
    domain: &Domain<P>,
    seat: &mut Seat<P>,
    weak: &Weak,
) -> Result<Weak, Spent>
    requires rest { IsAtRest domain.now seat.old }
    requires owned { 0 < times weak.now.slot seat.old.view.core.weaks }
    ensures spent { IsErr result ↔ IsSpent seat.old.view.core }
    ensures refused { OnErr result (seat.new ≡ seat.old) }
    ensures gained { IfOk result (λ more. (more.slot ≡ weak.now.slot)
        × GainsWeak P.Kind.fits (as_part P.part domain.now) weak.now.slot
        (seen_by P.seen seat.old) (seen_by P.seen seat.new)) }
    ensures owned { IfOk result (λ more. 0 < times more.slot seat.new.view.core.weaks) }
    ensures client { seat.new.view.client ≡ seat.old.view.client }
    ensures seen { P.seen seat.new.view.client ≡ P.seen seat.old.view.client }
    ensures beside { HasBeside P.with_seen Q.gone seat.old seat.new }
    ensures notes { seat.new.view.core.notes ≡ seat.old.view.core.notes }
    ensures objects { KnowsStill seat.old.view.core seat.old seat.new }
    ensures room { HasRoom seat.old.view.core → HasRoom seat.new.view.core }
    ensures rest { IsAtRest domain.now seat.new }
{
    control_word::copy_weak(domain, seat, weak)
}

/// Gives up a weak reference that the seat owns, at once. Where it was the slot's last one the slot is free to be
/// claimed again. At most two steps.
pub fn drop_weak<Q: Protocol, S, P: Part<Q, S>>(domain: &Domain<P>, seat: &mut Seat<P>, weak: Weak)
    requires rest { IsAtRest domain.now seat.old }
    requires owned { 0 < times weak.slot seat.old.view.core.weaks }
    ensures dropped { DropsWeak P.Kind.fits (as_part P.part domain.now) weak.slot
        (seen_by P.seen seat.old) (seen_by P.seen seat.new) }
    ensures client { seat.new.view.client ≡ seat.old.view.client }
    ensures seen { P.seen seat.new.view.client ≡ P.seen seat.old.view.client }
    ensures beside { HasBeside P.with_seen Q.gone seat.old seat.new }
    ensures notes { seat.new.view.core.notes ≡ seat.old.view.core.notes }
    ensures objects { KnowsStill (without_weak weak.slot seat.old.view.core) seat.old seat.new }
    ensures room { HasRoom seat.old.view.core → HasRoom seat.new.view.core }
    ensures rest { IsAtRest domain.now seat.new }
{
    control_word::drop_weak(domain, seat, weak);
}
