//! A new object in a free slot.
ghost use Rattle.std.specs.Prelude.{ℕ, ◌≡◌, ◌<◌, ◌↔◌, Err, IfOk, OnErr};
ghost use Rattle.epoch_domain.specs.plain_protocol.plain_state.Lists.{times};
ghost use Rattle.epoch_domain.specs.Calls.{IsOf};
ghost use Rattle.epoch_domain.specs.Leavings.{KnowsSame};
ghost use Rattle.epoch_domain.specs.epoch_core.declared.view.EpochPhase.TheVariants as phase;
ghost use Rattle.epoch_claims.specs.Claims.{makes_given};
ghost use Rattle.slot_store.specs.declared.making.MakeError.TheVariants as refused;
ghost use Rattle.epoch_refs.specs.Calls.{IsSpent};
ghost use Rattle.epoch_refs.specs.Making.{Fills, HasNoMake, IsReadyToMake, Makes, SlotsFitMakes};
ghost use Rattle.epoch_refs.specs.Searching.{IsFull};
ghost use Rattle.epoch_refs.specs.Walks.{IsAtRest};

use crate::claiming::claim_any;
use control_word::Strong;
use epoch_domain::{Deed, EpochDomain, EpochSeat, Protocol, SlotId};
use slot_store::MakeError;

/// Makes an object with this payload in a free slot, with one reference, which is the seat's. `MakesSpent` comes first,
/// exactly where the seat has no make left of its quota, then `AddsSpent`, exactly where it has no add left; nothing
/// has changed then. `Full` comes exactly where each claim of the call found its slot taken, and these were all slots
/// of the domain. It never comes where the makes of all quotas are at most the slots, nor where there are more slots
/// than the makes that this seat has used and those that all other seats were given. At most 17 events more than there
/// are slots.
pub fn e_make<P: Protocol, D: Deed<P>>(
    domain: &EpochDomain<P>,
    seat: &mut EpochSeat<P>,
    payload: &[u64; 16],
    deed: D,
) -> Result<Strong, MakeError>
    requires rest { IsAtRest domain.now seat.old }
    requires fits { P.Kind.fits payload.now }
    requires deed { IsReadyToMake P.Kind.fits domain.now (D.ready deed domain.now.protocol)
        payload.now seat.old }
    ensures makes_spent { (result ≡ Err refused.MakesSpent) ↔ HasNoMake seat.old.view.core }
    ensures adds_spent { (result ≡ Err refused.AddsSpent)
        ↔ ((HasNoMake seat.old.view.core → ⊥) × IsSpent seat.old.view.core) }
    ensures no_make { result ≡ Err refused.MakesSpent → seat.new ≡ seat.old }
    ensures no_add { result ≡ Err refused.AddsSpent → seat.new ≡ seat.old }
    ensures full { result ≡ Err refused.Full
        → IsFull P.Kind.fits domain.now seat.old seat.new }
    ensures full_only { result ≡ Err refused.Full
        → domain.now.shape.slots < makes_given domain.now.quotas }
    ensures full_by { result ≡ Err refused.Full
        → SlotsFitMakes domain.now seat.new.view.core }
    ensures made { IfOk result (λ strong. Makes P.Kind.fits domain.now
        (D.next deed domain.now.protocol) (D.allows deed domain.now.protocol) payload.now
        strong.slot seat.old seat.new) }
    ensures owned { IfOk result (λ strong. 0 < times strong.slot seat.new.view.core.owned) }
    ensures client { OnErr result (seat.new.view.client ≡ seat.old.view.client) }
    ensures objects { KnowsSame seat.old.view seat.new.view }
    ensures rest { IsAtRest domain.now seat.new }
{
    if domain.makes_left(seat) == 0 {
        return Err(MakeError::MakesSpent);
    }
    if domain.adds_left(seat) == 0 {
        return Err(MakeError::AddsSpent);
    }
    let Some(slot) = claim_any(domain, seat) else {
        return Err(MakeError::Full);
    };
    fill_all(domain, seat, slot, payload);
    domain.start(seat, deed);
    Ok(Strong::of(slot))
}

/// Fills the slot that the seat has claimed.
fn fill_all<P: Protocol>(
    domain: &EpochDomain<P>,
    seat: &mut EpochSeat<P>,
    slot: SlotId,
    payload: &[u64; 16],
)
    requires seat { IsOf domain.now seat.old }
    requires blank { seat.old.view.core.phase ≡ phase.Blank slot }
    ensures { Fills P.Kind.fits domain.now payload.now slot seat.old seat.new }
{
    for index in 0..16u32 {
        domain.fill(seat, slot, index, payload[index as usize]);
    }
}
