//! References that a seat copies and gives up.
ghost use Rattle.std.specs.Prelude.{◌≡◌, ◌<◌, ◌↔◌, IfOk, IsErr, OnErr};
ghost use Rattle.control_word.specs.plain_state.Lists.{times};
ghost use Rattle.control_word.specs.core_events.Steps.{HasRoom};
ghost use Rattle.control_word.specs.acquire_retire.Calls.{IsSameView, same_view};
ghost use Rattle.control_word.specs.Calls.{DropsStrong, GainsStrong, without_strong};
ghost use Rattle.control_word.specs.Moves.{KnowsStill};
ghost use Rattle.control_word.specs.Resting.{IsAtRest, IsSpent};
ghost use Rattle.part_calls.specs.Parts.{HasBeside, as_part, seen_by};

use control_word::{Domain, Protocol, Seat, Spent, Strong};
use slot_store::Part;

/// One more strong reference to the object of one that the seat owns. `Spent` exactly where the seat has used all adds
/// of its quota, and then nothing has changed. One step, and one add.
pub fn copy_strong<Q: Protocol, S, P: Part<Q, S>>(
    domain: &Domain<P>,
    seat: &mut Seat<P>,
    handle: &Strong,
) -> Result<Strong, Spent>
    requires rest { IsAtRest domain.now seat.old }
    requires owned { 0 < times handle.now.slot seat.old.view.core.owned }
    ensures spent { IsErr result ↔ IsSpent seat.old.view.core }
    ensures refused { OnErr result (seat.new ≡ seat.old) }
    ensures copied { IfOk result (λ more. (more.slot ≡ handle.now.slot)
        × GainsStrong P.Kind.fits (as_part P.part domain.now) same_view IsSameView
        handle.now.slot (seen_by P.seen seat.old) (seen_by P.seen seat.new)) }
    ensures owned { IfOk result (λ more. 0 < times more.slot seat.new.view.core.owned) }
    ensures client { seat.new.view.client ≡ seat.old.view.client }
    ensures seen { P.seen seat.new.view.client ≡ P.seen seat.old.view.client }
    ensures beside { HasBeside P.with_seen Q.gone seat.old seat.new }
    ensures notes { seat.new.view.core.notes ≡ seat.old.view.core.notes }
    ensures objects { KnowsStill seat.old.view.core seat.old seat.new }
    ensures room { HasRoom seat.old.view.core → HasRoom seat.new.view.core }
    ensures rest { IsAtRest domain.now seat.new }
{
    control_word::copy_strong(domain, seat, handle)
}

/// Gives up a reference that the seat owns, at once. Where it was the last strong one the object ends, and its slot
/// joins the seat's dying list, unless another seat has been quicker. At most three steps.
pub fn drop_strong<Q: Protocol, S, P: Part<Q, S>>(
    domain: &Domain<P>,
    seat: &mut Seat<P>,
    handle: Strong,
)
    requires rest { IsAtRest domain.now seat.old }
    requires owned { 0 < times handle.slot seat.old.view.core.owned }
    ensures dropped { DropsStrong P.Kind.fits (as_part P.part domain.now) handle.slot
        (seen_by P.seen seat.old) (seen_by P.seen seat.new) }
    ensures client { seat.new.view.client ≡ seat.old.view.client }
    ensures seen { P.seen seat.new.view.client ≡ P.seen seat.old.view.client }
    ensures beside { HasBeside P.with_seen Q.gone seat.old seat.new }
    ensures notes { seat.new.view.core.notes ≡ seat.old.view.core.notes }
    ensures objects { KnowsStill (without_strong handle.slot seat.old.view.core)
        seat.old seat.new }
    ensures room { HasRoom seat.old.view.core → HasRoom seat.new.view.core }
    ensures rest { IsAtRest domain.now seat.new }
{
    control_word::drop_strong(domain, seat, handle);
}
