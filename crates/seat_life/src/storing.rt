//! A payload goes into a strong place.
ghost use Rattle.std.specs.Prelude.{◌≡◌, ◌<◌, ◌↔◌, Err, IfOk, OnErr};
ghost use Rattle.domain_audit.specs.core_events.Views.{IsOpen};
ghost use Rattle.domain_audit.specs.control_word.Resting.{IsSpent};
ghost use Rattle.domain_audit.specs.slot_store.declared.making.MakeError.TheVariants as refused;
ghost use Rattle.domain_audit.specs.slot_store.Calls.{HasNoMake, IsReadyToMake};
ghost use Rattle.domain_audit.specs.slot_store.Searching.{Misses};
ghost use Rattle.domain_audit.specs.slot_store.claim_law.Claims.{makes_given};
ghost use Rattle.atomic_shared.specs.Places.{strong_place};
ghost use Rattle.seat_life.specs.Free.{IsFree, IsSameSeat, OwnsAsMuch, OwnsNothing};
ghost use Rattle.seat_life.specs.Values.{IsReadyToStore, StoresValue};

use domain_audit::{Deed, Domain, MakeError, Place, Protocol, Seat, make};
use snapshot_ptr::store;

/// Makes an object with this payload, and puts its reference into the place. What the place held is retired: it ends
/// once nobody refers to it, and a `reap` then destroys it. The first deed is that of the make, the second that of the
/// store; under `NoLaw` both are `AnyStep`, and of a place that a law doesn't own `Spares`. The refusals are those of
/// `make`, and then nothing was stored. As many steps as `make` and `store`.
pub fn store_value<P: Protocol, D: Deed<P>, E: Deed<P>>(
    domain: &Domain<P>,
    seat: &mut Seat<P>,
    place: Place,
    payload: &[u64; 16],
    making: D,
    storing: E,
) -> Result<(), MakeError>
    requires free { IsFree domain.now seat.old }
    requires open { IsOpen domain.now.shape seat.old.view.core (strong_place place) }
    requires fits { P.Kind.fits payload.now }
    requires making { IsReadyToMake P.Kind.fits domain.now (D.ready making domain.now.protocol)
        payload.now seat.old }
    requires storing { IsReadyToStore P.Kind.fits domain.now (D.next making domain.now.protocol)
        (D.allows making domain.now.protocol) payload.now (strong_place place)
        (E.ready storing domain.now.protocol) seat.old }
    ensures stored { IfOk result (λ done. StoresValue P.Kind.fits domain.now
        (D.next making domain.now.protocol) (D.allows making domain.now.protocol) payload.now
        (E.next storing domain.now.protocol) (E.allows storing domain.now.protocol)
        (strong_place place) seat.old seat.new) }
    ensures makes_spent { (result ≡ Err refused.MakesSpent) ↔ HasNoMake seat.old.view.core }
    ensures adds_spent { (result ≡ Err refused.AddsSpent)
        ↔ ((HasNoMake seat.old.view.core → ⊥) × IsSpent seat.old.view.core) }
    ensures no_make { result ≡ Err refused.MakesSpent → seat.new ≡ seat.old }
    ensures no_add { result ≡ Err refused.AddsSpent → seat.new ≡ seat.old }
    ensures full { result ≡ Err refused.Full → Misses P.Kind.fits domain.now seat.old seat.new }
    ensures full_only { result ≡ Err refused.Full
        → domain.now.shape.slots < makes_given domain.now.terms }
    ensures client { OnErr result (seat.new.view.client ≡ seat.old.view.client) }
    ensures owns { OwnsAsMuch seat.old seat.new }
    ensures nothing { OwnsNothing seat.old.view.core → OwnsNothing seat.new.view.core }
    ensures same { IsSameSeat seat.old seat.new }
    ensures free { IsFree domain.now seat.new }
{
    let object = make(domain, seat, payload, making)?;
    store(domain, seat, place, Some(object), storing);
    Ok(())
}
