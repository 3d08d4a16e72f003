//! A strong reference to what a strong place holds.
ghost use Rattle.std.specs.Prelude.{ℕ, ◌≡◌, ◌<◌, ◌↔◌, Err, IfOk, IfSome, IsErr, OnErr};
ghost use Rattle.protected_loads.specs.plain_state.Lists.{times};
ghost use Rattle.protected_loads.specs.core_events.Steps.{HasRoom};
ghost use Rattle.protected_loads.specs.core_events.Words.{slot_in};
ghost use Rattle.protected_loads.specs.counted_handles.declared.refusal.LoadError.TheVariants as refused;
ghost use Rattle.retiring_stores.specs.control_word.Moves.{KnowsStill};
ghost use Rattle.retiring_stores.specs.control_word.Resting.{IsAtRest, IsSpent};
ghost use Rattle.protected_loads.specs.Loads.{Misses};
ghost use Rattle.protected_loads.specs.References.{IsReadyToLoad, Loads};
ghost use Rattle.protected_loads.specs.Retries.{IsReadyToRetry, LoadsAtLast};
ghost use Rattle.atomic_shared.specs.Loading.{CanLoad};
ghost use Rattle.atomic_shared.specs.Places.{named, strong_place};

use crate::places::event_place;
use protected_loads::{Deed, LoadError, Place, Protocol, Spent};
use retiring_stores::{Domain, Seat, Strong};
use std::sync::Wait;

/// A strong reference to what the place holds. `Spent` comes first, exactly where the seat has used all adds of its
/// quota, and then nothing has changed. `None` exactly where the first step found null, and it is the only step then.
/// `Moved` exactly where the place held another content after the slot was announced; only the trail has grown then.
/// The deed holds at the look where that finds null, else at the check. At most five steps, and one add where a handle
/// is answered.
pub fn try_load<P: Protocol, D: Deed<P>>(
    domain: &Domain<P>,
    seat: &mut Seat<P>,
    place: Place,
    deed: D,
) -> Result<Option<Strong>, LoadError>
    requires rest { IsAtRest domain.now seat.old }
    requires place { CanLoad domain.now.shape seat.old.view.core place }
    requires deed { IsReadyToLoad P.Kind.fits domain.now (strong_place place)
        (D.ready deed domain.now.protocol) seat.old }
    ensures spent { (result ≡ Err refused.Spent) ↔ IsSpent seat.old.view.core }
    ensures refused { result ≡ Err refused.Spent → seat.new ≡ seat.old }
    ensures loaded { IfOk result (λ found. Loads P.Kind.fits domain.now (strong_place place)
        (D.next deed domain.now.protocol) (D.allows deed domain.now.protocol) (named found)
        seat.old seat.new) }
    ensures moved { (seen now : ℕ) → result ≡ Err (refused.Moved seen now)
        → Misses P.Kind.fits domain.now 0 (strong_place place) (D.next deed domain.now.protocol)
        (D.allows deed domain.now.protocol) (slot_in seen) (slot_in now) seat.old seat.new }
    ensures owned { IfOk result (λ found.
        IfSome found (λ strong. 0 < times strong.slot seat.new.view.core.owned)) }
    ensures notes { seat.new.view.core.notes ≡ seat.old.view.core.notes }
    ensures objects { KnowsStill seat.old.view.core seat.old seat.new }
    ensures room { HasRoom seat.old.view.core → HasRoom seat.new.view.core }
    ensures rest { IsAtRest domain.now seat.new }
{
    match protected_loads::try_load(domain, seat, event_place(place), deed)? {
        Some(slot) => Ok(Some(Strong::of(slot))),
        None => Ok(None),
    }
}

/// A strong reference to what the place holds. It tries again as long as the place changes between its look and its
/// check, so it may wait for other threads. `Spent` comes first, exactly where the seat has used all adds of its quota,
/// and then nothing has changed. `None` exactly where the last try found null. At most five steps for each try, and one
/// add where a handle is answered.
// A call would pass its answer through memory, between the add and the handle's use.
#[inline(always)]
pub fn load<P: Protocol, D: Deed<P>, R: Wait>(
    rt: &R,
    domain: &Domain<P>,
    seat: &mut Seat<P>,
    place: Place,
    deed: D,
) -> Result<Option<Strong>, Spent>
    requires rest { IsAtRest domain.now seat.old }
    requires place { CanLoad domain.now.shape seat.old.view.core place }
    requires deed { IsReadyToRetry P.Kind.fits domain.now (strong_place place)
        (D.next deed domain.now.protocol) (D.allows deed domain.now.protocol)
        (D.ready deed domain.now.protocol) seat.old }
    ensures spent { IsErr result ↔ IsSpent seat.old.view.core }
    ensures refused { OnErr result (seat.new ≡ seat.old) }
    ensures loaded { IfOk result (λ found. LoadsAtLast P.Kind.fits domain.now (strong_place place)
        (D.next deed domain.now.protocol) (D.allows deed domain.now.protocol) (named found)
        seat.old seat.new) }
    ensures owned { IfOk result (λ found.
        IfSome found (λ strong. 0 < times strong.slot seat.new.view.core.owned)) }
    ensures notes { seat.new.view.core.notes ≡ seat.old.view.core.notes }
    ensures objects { KnowsStill seat.old.view.core seat.old seat.new }
    ensures room { HasRoom seat.old.view.core → HasRoom seat.new.view.core }
    ensures rest { IsAtRest domain.now seat.new }
{
    match protected_loads::load(rt, domain, seat, event_place(place), deed)? {
        Some(slot) => Ok(Some(Strong::of(slot))),
        None => Ok(None),
    }
}
