//! References that go into places of the part.
ghost use Rattle.std.specs.Prelude.{◌≡◌, IfErr, IfOk};
ghost use Rattle.control_word.specs.plain_state.declared.slot.Kind.TheVariants as kind;
ghost use Rattle.control_word.specs.core_events.declared.act.Act.TheVariants as act;
ghost use Rattle.control_word.specs.core_events.Steps.{CanGive, HasRoom, IsContent, without_given};
ghost use Rattle.control_word.specs.core_events.Views.{IsOpen};
ghost use Rattle.control_word.specs.domain_rule.Views.{own_of};
ghost use Rattle.control_word.specs.acquire_retire.Calls.{IsReady};
ghost use Rattle.control_word.specs.Moves.{KnowsStill};
ghost use Rattle.control_word.specs.Resting.{IsAtRest};
ghost use Rattle.atomic_shared.specs.retiring_stores.Exchanging.{LosesTo, Replaces, Stores};
ghost use Rattle.atomic_shared.specs.retiring_stores.Scanning.{IsBelow};
ghost use Rattle.atomic_shared.specs.Places.{named, strong_place};
ghost use Rattle.slot_store.specs.protocol_pairs.Shares.{owned_of};
ghost use Rattle.slot_store.specs.protocol_pairs.Spared.{HasPlace};
ghost use Rattle.part_calls.specs.Parts.{AcceptsAll, HasBeside, as_part, seen_by, view_seen};

use atomic_shared::Lost;
use control_word::{Deed, Domain, Place, Protocol, Seat, SlotId, Strong};
use slot_store::{InPart, Part};

/// Puts the reference, or null, into a place of the part: one of its cells, or a field of an object of its own. What
/// the place held is retired. One step with the deed, and a collect where one is due then.
pub fn store<Q: Protocol, S, P: Part<Q, S>, D: Deed<Q>>(
    domain: &Domain<P>,
    seat: &mut Seat<P>,
    place: Place,
    new: Option<Strong>,
    deed: D,
)
    requires rest { IsAtRest domain.now seat.old }
    requires room { HasRoom seat.old.view.core }
    requires open { IsOpen domain.now.shape seat.old.view.core (strong_place place) }
    requires owned { CanGive kind.Strong (named new) seat.old.view.core }
    requires within { HasPlace (owned_of (Q.owns_cell (P.part domain.now.protocol))
        (Q.owns_weak_cell (P.part domain.now.protocol))
        (Q.owns_payload (P.part domain.now.protocol))
        (Q.owns_tickets (P.part domain.now.protocol))) (own_of seat.old.view)
        (strong_place place) }
    requires deed { IsReady (D.ready deed (P.part domain.now.protocol)) domain.now.shape
        (act.Swap (strong_place place) (named new)) (view_seen P.seen seat.old.view) }
    requires accepted { AcceptsAll (P.suits domain.now.protocol)
        (D.next deed (P.part domain.now.protocol)) P.seen seat.old.view.client }
    ensures stored { Stores P.Kind.fits (as_part P.part domain.now)
        (D.next deed (P.part domain.now.protocol)) (D.allows deed (P.part domain.now.protocol))
        (strong_place place) (named new) (seen_by P.seen seat.old) (seen_by P.seen seat.new) }
    ensures below { IsBelow domain.now seat.new }
    ensures beside { HasBeside P.with_seen Q.gone seat.old seat.new }
    ensures room { HasRoom seat.new.view.core }
    ensures notes { seat.new.view.core.notes ≡ seat.old.view.core.notes }
    ensures objects { KnowsStill (without_given kind.Strong (named new) seat.old.view.core)
        seat.old seat.new }
    ensures rest { IsAtRest domain.now seat.new }
{
    atomic_shared::store(domain, seat, place, new, InPart::<Q, S, D>::new(deed));
}

/// The same where the place holds what is expected. Else `Lost` tells what it held, and hands the reference back,
/// which is the seat's still: only its trail has grown, and the client's view is the deed's. One step, and a collect
/// where the seat has retired what was expected and one is due.
pub fn try_replace<Q: Protocol, S, P: Part<Q, S>, D: Deed<Q>>(
    domain: &Domain<P>,
    seat: &mut Seat<P>,
    place: Place,
    expected: Option<SlotId>,
    new: Option<Strong>,
    deed: D,
) -> Result<(), Lost>
    requires rest { IsAtRest domain.now seat.old }
    requires room { HasRoom seat.old.view.core }
    requires open { IsOpen domain.now.shape seat.old.view.core (strong_place place) }
    requires owned { CanGive kind.Strong (named new) seat.old.view.core }
    requires expected { IsContent domain.now.shape expected }
    requires within { HasPlace (owned_of (Q.owns_cell (P.part domain.now.protocol))
        (Q.owns_weak_cell (P.part domain.now.protocol))
        (Q.owns_payload (P.part domain.now.protocol))
        (Q.owns_tickets (P.part domain.now.protocol))) (own_of seat.old.view)
        (strong_place place) }
    requires deed { IsReady (D.ready deed (P.part domain.now.protocol)) domain.now.shape
        (act.Cas (strong_place place) expected (named new)) (view_seen P.seen seat.old.view) }
    requires accepted { AcceptsAll (P.suits domain.now.protocol)
        (D.next deed (P.part domain.now.protocol)) P.seen seat.old.view.client }
    ensures replaced { IfOk result (λ done. Replaces P.Kind.fits (as_part P.part domain.now)
        (D.next deed (P.part domain.now.protocol)) (D.allows deed (P.part domain.now.protocol))
        (strong_place place) (named new) expected (seen_by P.seen seat.old)
        (seen_by P.seen seat.new) × IsBelow domain.now seat.new) }
    ensures lost { IfErr result (λ lost. LosesTo P.Kind.fits (as_part P.part domain.now)
        (D.next deed (P.part domain.now.protocol)) (D.allows deed (P.part domain.now.protocol))
        (strong_place place) (named new) expected lost.now (seen_by P.seen seat.old)
        (seen_by P.seen seat.new)) }
    ensures back { IfErr result (λ lost. lost.back ≡ new) }
    ensures beside { HasBeside P.with_seen Q.gone seat.old seat.new }
    ensures room { HasRoom seat.new.view.core }
    ensures notes { seat.new.view.core.notes ≡ seat.old.view.core.notes }
    ensures objects { KnowsStill (without_given kind.Strong (named new) seat.old.view.core)
        seat.old seat.new }
    ensures rest { IsAtRest domain.now seat.new }
{
    atomic_shared::try_replace(
        domain,
        seat,
        place,
        expected,
        new,
        InPart::<Q, S, D>::new(deed),
    )
}
