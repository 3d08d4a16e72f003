//! Weak references that go into places of the part.
ghost use Rattle.std.specs.Prelude.{◌≡◌};
ghost use Rattle.control_word.specs.plain_state.declared.slot.Kind.TheVariants as kind;
ghost use Rattle.control_word.specs.core_events.declared.act.Act.TheVariants as act;
ghost use Rattle.control_word.specs.core_events.Steps.{CanGive, HasRoom, without_given};
ghost use Rattle.control_word.specs.core_events.Views.{IsOpen};
ghost use Rattle.control_word.specs.domain_rule.Views.{own_of};
ghost use Rattle.control_word.specs.acquire_retire.Calls.{IsReady};
ghost use Rattle.control_word.specs.Moves.{KnowsStill};
ghost use Rattle.control_word.specs.Resting.{IsAtRest};
ghost use Rattle.atomic_weak.specs.retiring_stores.Exchanging.{Stores};
ghost use Rattle.atomic_weak.specs.retiring_stores.Scanning.{IsBelow};
ghost use Rattle.atomic_weak.specs.Places.{named, weak_place};
ghost use Rattle.part_calls.specs.protocol_pairs.Shares.{owned_of};
ghost use Rattle.part_calls.specs.protocol_pairs.Spared.{HasPlace};
ghost use Rattle.part_calls.specs.Parts.{AcceptsAll, HasBeside, as_part, seen_by, view_seen};

use control_word::{Deed, Domain, Protocol, Seat, Weak, WeakPlace};
use part_calls::{InPart, Part};

/// Puts the weak reference, or null, into a place of the part: one of its weak cells, or the weak field of an object of
/// its own. What the place held is retired. One step with the deed, and a collect where one is due then.
pub fn store_weak<Q: Protocol, S, P: Part<Q, S>, D: Deed<Q>>(
    domain: &Domain<P>,
    seat: &mut Seat<P>,
    place: WeakPlace,
    new: Option<Weak>,
    deed: D,
)
    requires rest { IsAtRest domain.now seat.old }
    requires room { HasRoom seat.old.view.core }
    requires open { IsOpen domain.now.shape seat.old.view.core (weak_place place) }
    requires owned { CanGive kind.Weak (named new) seat.old.view.core }
    requires within { HasPlace (owned_of (Q.owns_cell (P.part domain.now.protocol))
        (Q.owns_weak_cell (P.part domain.now.protocol))
        (Q.owns_payload (P.part domain.now.protocol))
        (Q.owns_tickets (P.part domain.now.protocol))) (own_of seat.old.view)
        (weak_place place) }
    requires deed { IsReady (D.ready deed (P.part domain.now.protocol)) domain.now.shape
        (act.Swap (weak_place place) (named new)) (view_seen P.seen seat.old.view) }
    requires accepted { AcceptsAll (P.suits domain.now.protocol)
        (D.next deed (P.part domain.now.protocol)) P.seen seat.old.view.client }
    ensures stored { Stores P.Kind.fits (as_part P.part domain.now)
        (D.next deed (P.part domain.now.protocol)) (D.allows deed (P.part domain.now.protocol))
        (weak_place place) (named new) (seen_by P.seen seat.old) (seen_by P.seen seat.new) }
    ensures below { IsBelow domain.now seat.new }
    ensures beside { HasBeside P.with_seen Q.gone seat.old seat.new }
    ensures room { HasRoom seat.new.view.core }
    ensures notes { seat.new.view.core.notes ≡ seat.old.view.core.notes }
    ensures objects { KnowsStill (without_given kind.Weak (named new) seat.old.view.core)
        seat.old seat.new }
    ensures rest { IsAtRest domain.now seat.new }
{
    atomic_weak::store_weak(domain, seat, place, new, InPart::<Q, S, D>::new(deed));
}
