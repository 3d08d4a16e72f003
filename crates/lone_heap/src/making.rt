//! A seat that is alone makes an object.
ghost use Rattle.std.specs.Prelude.{◌≡◌, ◌↔◌, Err, IfOk};
ghost use Rattle.plain_settling.specs.plain_store.Heaps.{Makes, NoneFree};
ghost use Rattle.protected_loads.specs.control_word.Resting.{IsSpent};
ghost use Rattle.slot_store.specs.Calls.{HasNoMake};
ghost use Rattle.slot_store.specs.declared.making.MakeError.TheVariants as refused;
ghost use Rattle.lone_heap.specs.Lone.{IsReady, known_plain};
ghost use Rattle.lone_heap.specs.Trails.{Shows, started_by};

use protected_loads::{AnyStep, Domain, NoLaw, PayloadKind, Seat};
use slot_store::MakeError;
use snapshot_ptr::Strong;

/// A new object with this payload, and a reference to it that the seat owns. `MakesSpent` comes first, exactly where
/// the seat has no make left, then `AddsSpent`, exactly where it has no add left; nothing has changed then. `Full`
/// comes only where no slot is free, and the plain state is as it was. At most 18 steps more than there are slots.
pub fn make<K: PayloadKind>(
    domain: &Domain<NoLaw<K>>,
    seat: &mut Seat<NoLaw<K>>,
    payload: &[u64; 16],
) -> Result<Strong, MakeError>
    requires ready { IsReady domain.now seat.old }
    requires fits { K.fits payload.now }
    ensures makes_spent { (result ≡ Err refused.MakesSpent) ↔ HasNoMake seat.old.view.core }
    ensures adds_spent { (result ≡ Err refused.AddsSpent)
        ↔ ((HasNoMake seat.old.view.core → ⊥) × IsSpent seat.old.view.core) }
    ensures no_make { result ≡ Err refused.MakesSpent → seat.new ≡ seat.old }
    ensures no_add { result ≡ Err refused.AddsSpent → seat.new ≡ seat.old }
    ensures full { result ≡ Err refused.Full → NoneFree (known_plain domain.now seat.old) }
    ensures same { result ≡ Err refused.Full
        → known_plain domain.now seat.new ≡ known_plain domain.now seat.old }
    ensures made { IfOk result (λ strong. Makes (known_plain domain.now seat.old) strong.slot
        payload.now (known_plain domain.now seat.new)) }
    ensures trail { Shows (started_by result) seat.old.view.core seat.new.view.core }
    ensures notes { seat.new.view.core.notes ≡ seat.old.view.core.notes }
    ensures ready { IsReady domain.now seat.new }
{
    slot_store::make(domain, seat, payload, AnyStep)
}
