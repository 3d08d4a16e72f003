//! Weak places that a seat reads with a deed of the part.
ghost use Rattle.std.specs.Prelude.{ℕ, ◌≡◌, ◌<◌, ◌↔◌, Err, IfOk, IfSome};
ghost use Rattle.control_word.specs.plain_state.Lists.{times};
ghost use Rattle.control_word.specs.core_events.Steps.{HasRoom};
ghost use Rattle.control_word.specs.core_events.Words.{slot_in};
ghost use Rattle.control_word.specs.counted_handles.declared.refusal.LoadError.TheVariants as refused;
ghost use Rattle.control_word.specs.Moves.{KnowsStill};
ghost use Rattle.control_word.specs.Resting.{IsAtRest, IsSpent};
ghost use Rattle.atomic_weak.specs.protected_loads.Loads.{Misses};
ghost use Rattle.atomic_weak.specs.protected_loads.References.{IsReadyToLoad, Loads};
ghost use Rattle.atomic_weak.specs.Loading.{CanLoad};
ghost use Rattle.atomic_weak.specs.Places.{named, weak_place};
ghost use Rattle.part_calls.specs.Parts.{AcceptsAll, HasBeside, as_part, seen_by};

use control_word::{Deed, Domain, LoadError, Protocol, Seat, Weak, WeakPlace};
use part_calls::{InPart, Part};

/// A weak reference to what the place holds. `Spent` comes first, exactly where the seat has used all adds of its
/// quota, and then nothing has changed. `None` exactly where the first step found null, and it is the only step then.
/// `Moved` exactly where the place held another content after the slot was announced; only the trail has grown then.
/// The deed of the part holds at the look where that finds null, else at the check. At most five steps, and one add
/// where a handle is answered.
pub fn try_load_weak<Q: Protocol, S, P: Part<Q, S>, D: Deed<Q>>(
    domain: &Domain<P>,
    seat: &mut Seat<P>,
    place: WeakPlace,
    deed: D,
) -> Result<Option<Weak>, LoadError>
    requires rest { IsAtRest domain.now seat.old }
    requires place { CanLoad domain.now.shape seat.old.view.core place }
    requires deed { IsReadyToLoad P.Kind.fits (as_part P.part domain.now) (weak_place place)
        (D.ready deed (P.part domain.now.protocol)) (seen_by P.seen seat.old) }
    requires accepted { AcceptsAll (P.suits domain.now.protocol)
        (D.next deed (P.part domain.now.protocol)) P.seen seat.old.view.client }
    ensures spent { (result ≡ Err refused.Spent) ↔ IsSpent seat.old.view.core }
    ensures refused { result ≡ Err refused.Spent → seat.new ≡ seat.old }
    ensures loaded { IfOk result (λ found. Loads P.Kind.fits (as_part P.part domain.now)
        (weak_place place) (D.next deed (P.part domain.now.protocol))
        (D.allows deed (P.part domain.now.protocol)) (named found)
        (seen_by P.seen seat.old) (seen_by P.seen seat.new)) }
    ensures moved { (seen now : ℕ) → result ≡ Err (refused.Moved seen now)
        → Misses P.Kind.fits (as_part P.part domain.now) 0 (weak_place place)
        (D.next deed (P.part domain.now.protocol)) (D.allows deed (P.part domain.now.protocol))
        (slot_in seen) (slot_in now) (seen_by P.seen seat.old) (seen_by P.seen seat.new) }
    ensures owned { IfOk result (λ found.
        IfSome found (λ weak. 0 < times weak.slot seat.new.view.core.weaks)) }
    ensures beside { HasBeside P.with_seen Q.gone seat.old seat.new }
    ensures notes { seat.new.view.core.notes ≡ seat.old.view.core.notes }
    ensures objects { KnowsStill seat.old.view.core seat.old seat.new }
    ensures room { HasRoom seat.old.view.core → HasRoom seat.new.view.core }
    ensures rest { IsAtRest domain.now seat.new }
{
    atomic_weak::try_load_weak(domain, seat, place, InPart::<Q, S, D>::new(deed))
}
