//! A new object of the part's.
ghost use Rattle.std.specs.Prelude.{◌≡◌, ◌<◌, ◌↔◌, Err, IfOk, OnErr};
ghost use Rattle.control_word.specs.plain_state.Lists.{times};
ghost use Rattle.control_word.specs.core_events.Steps.{HasRoom};
ghost use Rattle.slot_store.specs.claim_law.Claims.{makes_given};
ghost use Rattle.control_word.specs.Moves.{KnowsStill};
ghost use Rattle.control_word.specs.Resting.{IsAtRest, IsSpent};
ghost use Rattle.slot_store.specs.declared.making.MakeError.TheVariants as refused;
ghost use Rattle.slot_store.specs.Calls.{HasNoMake, IsReadyToMake, Makes};
ghost use Rattle.slot_store.specs.Searching.{Misses};
ghost use Rattle.part_calls.specs.Parts.{AcceptsAll, HasBeside, as_part, seen_by};

use control_word::{Deed, Domain, Protocol, Seat, Strong};
pub use slot_store::MakeError;
use slot_store::{InPart, Part};

/// Makes an object with this payload, which is the part's, in a free slot, with one strong reference, which is the
/// seat's. `MakesSpent` comes first, exactly where the seat has no make left, then `AddsSpent`, exactly where it has no
/// add left; nothing has changed then. `Full` comes exactly where each claim of the call found its slot taken: never
/// where all makes, those of the quotas and those that tickets grant, are at most the slots. At most 18 steps more than
/// there are slots.
pub fn make<Q: Protocol, S, P: Part<Q, S>, D: Deed<Q>>(
    domain: &Domain<P>,
    seat: &mut Seat<P>,
    payload: &[u64; 16],
    deed: D,
) -> Result<Strong, MakeError>
    requires rest { IsAtRest domain.now seat.old }
    requires owned { Q.owns_payload (P.part domain.now.protocol) payload.now }
    requires fits { Q.Kind.fits payload.now }
    requires deed { IsReadyToMake P.Kind.fits (as_part P.part domain.now)
        (D.ready deed (P.part domain.now.protocol)) payload.now (seen_by P.seen seat.old) }
    requires accepted { AcceptsAll (P.suits domain.now.protocol)
        (D.next deed (P.part domain.now.protocol)) P.seen seat.old.view.client }
    ensures makes_spent { (result ≡ Err refused.MakesSpent) ↔ HasNoMake seat.old.view.core }
    ensures adds_spent { (result ≡ Err refused.AddsSpent)
        ↔ ((HasNoMake seat.old.view.core → ⊥) × IsSpent seat.old.view.core) }
    ensures no_make { result ≡ Err refused.MakesSpent → seat.new ≡ seat.old }
    ensures no_add { result ≡ Err refused.AddsSpent → seat.new ≡ seat.old }
    ensures full { result ≡ Err refused.Full → Misses P.Kind.fits (as_part P.part domain.now)
        (seen_by P.seen seat.old) (seen_by P.seen seat.new) }
    ensures full_only { result ≡ Err refused.Full
        → domain.now.shape.slots < makes_given domain.now.terms }
    ensures made { IfOk result (λ strong. Makes P.Kind.fits (as_part P.part domain.now)
        (D.next deed (P.part domain.now.protocol)) (D.allows deed (P.part domain.now.protocol))
        payload.now strong.slot (seen_by P.seen seat.old) (seen_by P.seen seat.new)) }
    ensures owned { IfOk result (λ strong. 0 < times strong.slot seat.new.view.core.owned) }
    ensures client { OnErr result (seat.new.view.client ≡ seat.old.view.client) }
    ensures beside { HasBeside P.with_seen Q.gone seat.old seat.new }
    ensures notes { seat.new.view.core.notes ≡ seat.old.view.core.notes }
    ensures objects { KnowsStill seat.old.view.core seat.old seat.new }
    ensures room { HasRoom seat.old.view.core → HasRoom seat.new.view.core }
    ensures rest { IsAtRest domain.now seat.new }
{
    slot_store::make(domain, seat, payload, InPart::<Q, S, D>::new(deed))
}
