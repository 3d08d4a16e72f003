//! A reference to what a place holds, of the place's kind.
ghost use Rattle.std.specs.Prelude.{ℕ, ◌≡◌, ◌<◌, ◌↔◌, Err, IfErr, IfOk};
ghost use Rattle.control_word.specs.plain_state.Lists.{entry_times};
ghost use Rattle.control_word.specs.plain_state.Places.{place_kind};
ghost use Rattle.control_word.specs.core_events.Steps.{CanGive, HasAdd, HasRoom, IsIdle};
ghost use Rattle.control_word.specs.core_events.Views.{IsReadable, snapshots};
ghost use Rattle.control_word.specs.core_events.Words.{slot_in};
ghost use Rattle.control_word.specs.counted_handles.declared.refusal.LoadError.TheVariants as refused;
ghost use Rattle.control_word.specs.acquire_retire.Calls.{IsOf, IsSameView, Steps, same_view};
ghost use Rattle.control_word.specs.Moves.{KnowsStill};
ghost use Rattle.control_word.specs.Resting.{IsAtRest, IsSpent};
ghost use Rattle.protected_loads.specs.Loads.{Misses};
ghost use Rattle.protected_loads.specs.References.{IsReadyToLoad, Loads, counted_as, counting};

use crate::acquiring::{Moved, acquire};
use control_word::{
    Deed, Domain, EventPlace, Kind, LoadError, Protocol, Seat, SlotId, Still, held_as, kind_of,
};

/// The slot that the place holds, with one reference more to it, of the place's kind, which is the seat's. `Spent`
/// comes first, exactly where the seat has used all adds of its quota, and then nothing has changed. `None` exactly
/// where the first step found null, and it is the only step then. `Moved` exactly where the place held another
/// content after the announcement; only the trail has grown then. The deed holds at the look where that finds null,
/// else at the check. At most five steps, and one add where a slot is answered.
// Where the place is known at the call, so is the word that is read.
#[inline(always)]
pub fn try_load<P: Protocol, D: Deed<P>>(
    domain: &Domain<P>,
    seat: &mut Seat<P>,
    place: EventPlace,
    deed: D,
) -> Result<Option<SlotId>, LoadError>
    requires rest { IsAtRest domain.now seat.old }
    requires place { IsReadable domain.now.shape seat.old.view.core place }
    requires deed { IsReadyToLoad P.Kind.fits domain.now place (D.ready deed domain.now.protocol)
        seat.old }
    ensures spent { (result ≡ Err refused.Spent) ↔ IsSpent seat.old.view.core }
    ensures refused { result ≡ Err refused.Spent → seat.new ≡ seat.old }
    ensures loaded { IfOk result (λ found. Loads P.Kind.fits domain.now place
        (D.next deed domain.now.protocol) (D.allows deed domain.now.protocol) found
        seat.old seat.new) }
    ensures moved { (seen now : ℕ) → result ≡ Err (refused.Moved seen now)
        → Misses P.Kind.fits domain.now 0 place (D.next deed domain.now.protocol)
        (D.allows deed domain.now.protocol) (slot_in seen) (slot_in now) seat.old seat.new }
    ensures owned { IfOk result (λ found. CanGive (place_kind place) found seat.new.view.core) }
    ensures notes { seat.new.view.core.notes ≡ seat.old.view.core.notes }
    ensures objects { KnowsStill seat.old.view.core seat.old seat.new }
    ensures room { HasRoom seat.old.view.core → HasRoom seat.new.view.core }
    ensures rest { IsAtRest domain.now seat.new }
{
    if domain.adds_left(seat) == 0 {
        return Err(LoadError::Spent);
    }
    match load_once(domain, seat, place, deed) {
        Ok(found) => Ok(found),
        Err(moved) => Err(in_words(moved)),
    }
}

/// A try to load, by a seat that has an add left.
#[inline(always)]
pub(crate) fn load_once<P: Protocol, D: Deed<P>>(
    domain: &Domain<P>,
    seat: &mut Seat<P>,
    place: EventPlace,
    deed: D,
) -> Result<Option<SlotId>, Moved>
    requires rest { IsAtRest domain.now seat.old }
    requires add { HasAdd seat.old.view.core }
    requires place { IsReadable domain.now.shape seat.old.view.core place }
    requires deed { IsReadyToLoad P.Kind.fits domain.now place (D.ready deed domain.now.protocol)
        seat.old }
    ensures loaded { IfOk result (λ found. Loads P.Kind.fits domain.now place
        (D.next deed domain.now.protocol) (D.allows deed domain.now.protocol) found
        seat.old seat.new) }
    ensures moved { IfErr result (λ moved. Misses P.Kind.fits domain.now 0 place
        (D.next deed domain.now.protocol) (D.allows deed domain.now.protocol) moved.seen moved.now
        seat.old seat.new) }
    ensures owned { IfOk result (λ found. CanGive (place_kind place) found seat.new.view.core) }
    ensures notes { seat.new.view.core.notes ≡ seat.old.view.core.notes }
    ensures objects { KnowsStill seat.old.view.core seat.old seat.new }
    ensures room { HasRoom seat.old.view.core → HasRoom seat.new.view.core }
    ensures rest { IsAtRest domain.now seat.new }
{
    let found = acquire(domain, seat, 0, place, deed, deed)?;
    if let Some(slot) = found {
        count(domain, seat, kind_of(place), slot);
        domain.release(seat, 0);
    }
    Ok(found)
}

/// The same contents as words of the place, in the refusal of a load.
pub fn in_words(moved: Moved) -> LoadError
    ensures words { (seen now : ℕ) → result ≡ refused.Moved seen now
        → (slot_in seen ≡ moved.seen) × (slot_in now ≡ moved.now) }
    ensures moves { result ≡ refused.Spent → ⊥ }
{
    LoadError::Moved {
        seen: held_as(moved.seen),
        now: held_as(moved.now),
    }
}

/// One more reference of this kind to a slot that is under a snapshot of this kind, so that it counts.
fn count<P: Protocol>(domain: &Domain<P>, seat: &mut Seat<P>, kind: Kind, slot: SlotId)
    requires seat { IsOf domain.now seat.old }
    requires idle { IsIdle seat.old.view.core }
    requires add { HasAdd seat.old.view.core }
    requires protected { 0 < entry_times kind slot (snapshots seat.old.view.core) }
    ensures { Steps P.Kind.fits domain.now same_view IsSameView (counting kind slot)
        seat.old seat.new (counted_as kind) }
{
    match kind {
        Kind::Strong => domain.add(seat, slot, Still),
        Kind::Weak | Kind::Disposal => domain.wadd(seat, slot),
    };
}
