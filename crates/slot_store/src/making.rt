//! A new object in a free slot.
ghost use Rattle.std.specs.Prelude.{ℕ, ◌≡◌, ◌≢◌, ◌<◌, ◌↔◌, Err, IfOk, OnErr};
ghost use Rattle.claim_law.specs.core_events.declared.view.Phase.TheVariants as phase;
ghost use Rattle.protocol_pairs.specs.plain_state.Lists.{times};
ghost use Rattle.claim_law.specs.core_events.Steps.{HasRoom};
ghost use Rattle.claim_law.specs.Claims.{makes_given};
ghost use Rattle.retiring_stores.specs.acquire_retire.Calls.{IsOf};
ghost use Rattle.retiring_stores.specs.control_word.Moves.{KnowsStill};
ghost use Rattle.retiring_stores.specs.control_word.Resting.{IsAtRest, IsSpent};
ghost use Rattle.slot_store.specs.declared.making.MakeError.TheVariants as refused;
ghost use Rattle.slot_store.specs.Calls.{Fills, HasNoMake, IsReadyToMake, Makes};
ghost use Rattle.slot_store.specs.Searching.{Misses};

use crate::claiming::claim_any;
use protocol_pairs::{Deed, Protocol};
use retiring_stores::{Domain, Seat, SlotId, Strong};

/// Why no object was made.
#[derive(Clone, Copy, PartialEq, Eq, Debug, Drop)]
pub enum MakeError {
    /// The seat has used all makes of its quota and of what its own tickets grant.
    MakesSpent,
    /// The seat has no add left of its quota.
    AddsSpent,
    /// Each slot was taken at some step of the call. So the domain was given more makes than it has slots.
    Full,
}

/// Makes an object with this payload in a free slot, with one strong reference, which is the seat's. `MakesSpent` comes
/// first, exactly where the seat has no make left, then `AddsSpent`, exactly where it has no add left; nothing has
/// changed then. `Full` comes exactly where each claim of the call found its slot taken, and the words that they found
/// show each slot taken. It never comes where all makes, those of quotas and those that tickets grant, are at most the
/// slots. At most 18 steps more than there are slots.
pub fn make<P: Protocol, D: Deed<P>>(
    domain: &Domain<P>,
    seat: &mut Seat<P>,
    payload: &[u64; 16],
    deed: D,
) -> Result<Strong, MakeError>
    requires rest { IsAtRest domain.now seat.old }
    requires fits { P.Kind.fits payload.now }
    requires deed { IsReadyToMake P.Kind.fits domain.now (D.ready deed domain.now.protocol)
        payload.now seat.old }
    ensures makes_spent { (result ≡ Err refused.MakesSpent) ↔ HasNoMake seat.old.view.core }
    ensures adds_spent { (result ≡ Err refused.AddsSpent)
        ↔ ((HasNoMake seat.old.view.core → ⊥) × IsSpent seat.old.view.core) }
    ensures no_make { result ≡ Err refused.MakesSpent → seat.new ≡ seat.old }
    ensures no_add { result ≡ Err refused.AddsSpent → seat.new ≡ seat.old }
    ensures full { result ≡ Err refused.Full
        → Misses P.Kind.fits domain.now seat.old seat.new }
    ensures full_only { result ≡ Err refused.Full
        → domain.now.shape.slots < makes_given domain.now.terms }
    ensures made { IfOk result (λ strong. Makes P.Kind.fits domain.now
        (D.next deed domain.now.protocol) (D.allows deed domain.now.protocol) payload.now
        strong.slot seat.old seat.new) }
    ensures owned { IfOk result (λ strong. 0 < times strong.slot seat.new.view.core.owned) }
    ensures client { OnErr result (seat.new.view.client ≡ seat.old.view.client) }
    ensures notes { seat.new.view.core.notes ≡ seat.old.view.core.notes }
    ensures objects { KnowsStill seat.old.view.core seat.old seat.new }
    ensures room { HasRoom seat.old.view.core → HasRoom seat.new.view.core }
    ensures rest { IsAtRest domain.now seat.new }
{
    if domain.makes_left(seat) == 0 {
        return Err(MakeError::MakesSpent);
    }
    if domain.adds_left(seat) == 0 {
        return Err(MakeError::AddsSpent);
    }
    let Some(slot) = claim_any(domain, seat) else {
        return Err(MakeError::Full);
    };
    domain.arm(seat);
    fill_all(domain, seat, slot, payload);
    domain.start(seat, deed);
    Ok(Strong::of(slot))
}

/// Fills the slot that the seat has claimed and armed.
fn fill_all<P: Protocol>(domain: &Domain<P>, seat: &mut Seat<P>, slot: SlotId, payload: &[u64; 16])
    requires seat { IsOf domain.now seat.old }
    requires blank { seat.old.view.core.phase ≡ phase.Blank slot }
    ensures { Fills P.Kind.fits domain.now payload.now slot seat.old seat.new }
{
    for index in 0..16u32 {
        domain.fill_in(seat, slot, index, payload[index as usize]);
    }
}
