//! References to what places hold.
ghost use Rattle.std.specs.Prelude.{◌≡◌, ◌↔◌, [], IfOk, IsErr, OnErr};
ghost use Rattle.protected_loads.specs.plain_state.declared.slot.Kind.TheVariants as kind;
ghost use Rattle.protected_loads.specs.plain_state.Places.{IsOpen, place_kind};
ghost use Rattle.plain_settling.specs.plain_store.Calls.{Loads, WeaklyLoads};
ghost use Rattle.protected_loads.specs.control_word.Resting.{IsSpent};
ghost use Rattle.lone_heap.specs.Lone.{IsReady, known_plain};
ghost use Rattle.lone_heap.specs.Trails.{Shows};

use protected_loads::{
    AnyStep, Domain, LoadError, NoLaw, PayloadKind, Seat, SlotId, Spent, try_load,
};
use slot_store::EventPlace;

/// One more reference to what the place holds, of the place's kind, or None where it holds null. The place doesn't
/// change meanwhile, since the seat is alone. `Spent` exactly where the seat has used all adds of its quota, and then
/// nothing has changed. At most five steps.
pub fn load<K: PayloadKind>(
    domain: &Domain<NoLaw<K>>,
    seat: &mut Seat<NoLaw<K>>,
    place: EventPlace,
) -> Result<Option<SlotId>, Spent>
    requires ready { IsReady domain.now seat.old }
    requires opened { IsOpen (known_plain domain.now seat.old) 0 place }
    ensures spent { IsErr result ↔ IsSpent seat.old.view.core }
    ensures refused { OnErr result (seat.new ≡ seat.old) }
    ensures loads { place_kind place ≡ kind.Strong → IfOk result (λ found.
        Loads (known_plain domain.now seat.old) place found (known_plain domain.now seat.new)) }
    ensures weakly { place_kind place ≡ kind.Weak → IfOk result (λ found. WeaklyLoads
        (known_plain domain.now seat.old) place found (known_plain domain.now seat.new)) }
    ensures trail { Shows [] seat.old.view.core seat.new.view.core }
    ensures notes { seat.new.view.core.notes ≡ seat.old.view.core.notes }
    ensures ready { IsReady domain.now seat.new }
{
    match try_load(domain, seat, place, AnyStep) {
        Ok(found) => Ok(found),
        Err(LoadError::Spent) => Err(Spent),
        Err(LoadError::Moved { .. }) => unreachable!(),
    }
}
