//! Snapshots of a seat that is alone: taken, kept by a reference, and ended.
ghost use Rattle.std.specs.Prelude.{◌≡◌, ◌<◌, ◌↔◌, [], IfNone, IfOk, IfSome, IsErr, None, OnErr, Some, slice_set};
ghost use Rattle.protected_loads.specs.plain_state.Limits.{words_of_seat};
ghost use Rattle.protected_loads.specs.plain_state.declared.act.PlainAct.TheVariants as act;
ghost use Rattle.protected_loads.specs.plain_state.declared.slot.Kind.TheVariants as kind;
ghost use Rattle.protected_loads.specs.plain_state.Lists.{entry_times};
ghost use Rattle.protected_loads.specs.plain_state.Places.{HoldsStrongly, IsOpen, place_kind};
ghost use Rattle.protected_loads.specs.plain_state.State.{seat_at};
ghost use Rattle.protected_loads.specs.plain_state.Steps.{Does};
ghost use Rattle.plain_settling.specs.plain_store.Calls.{Gains};
ghost use Rattle.plain_settling.specs.Snapshots.{FindsNone, IsProtected, Takes};
ghost use Rattle.protected_loads.specs.core_events.declared.view.Note.TheVariants as stands;
ghost use Rattle.protected_loads.specs.core_events.Views.{note_of};
ghost use Rattle.protected_loads.specs.acquire_retire.Notes.{least_free};
ghost use Rattle.protected_loads.specs.control_word.Resting.{IsSpent};
ghost use Rattle.lone_heap.specs.Lone.{IsReady, known_plain};
ghost use Rattle.lone_heap.specs.Trails.{Shows};
ghost use Rattle.lone_heap.specs.Words.{AreNoted, note_for};

use crate::loading::load;
use crate::words::Words;
use protected_loads::{
    AnyStep, Domain, NoLaw, PayloadKind, Protocol, Seat, SlotId, Spent, Still, acquire,
};
use slot_store::EventPlace;
use snapshot_ptr::Strong;

/// A snapshot of what the strong place holds: its slot, and whether it is counted; or None where the place holds null.
/// It takes the least of the words 1 to 3 that protects nothing. Where all three are in use it is counted, and holds a
/// reference that the seat owns. `Spent` exactly where it would be counted and the seat has used all adds of its quota,
/// and then nothing has changed. At most five steps.
pub fn snap<K: PayloadKind>(
    domain: &Domain<NoLaw<K>>,
    seat: &mut Seat<NoLaw<K>>,
    words: &mut Words,
    place: EventPlace,
) -> Result<Option<(SlotId, bool)>, Spent>
    requires ready { IsReady domain.now seat.old }
    requires noted { AreNoted words.old seat.old }
    requires strong { place_kind place ≡ kind.Strong }
    requires opened { IsOpen (known_plain domain.now seat.old) 0 place }
    ensures spent { IsErr result
        ↔ ((least_free seat.old.view.core ≡ None) × IsSpent seat.old.view.core) }
    ensures refused { OnErr result (seat.new ≡ seat.old) }
    ensures takes { IfOk result (λ found.
        Takes (known_plain domain.now seat.old) place found (known_plain domain.now seat.new)) }
    ensures noted { AreNoted words.new seat.new }
    ensures trail { Shows [] seat.old.view.core seat.new.view.core }
    ensures ready { IsReady domain.now seat.new }
{
    let Some(word) = domain.free_note(seat) else {
        let found = load(domain, seat, place)?;
        return Ok(found.map(|slot| (slot, true)));
    };
    let Some(slot) = protect(domain, seat, word, place) else {
        return Ok(None);
    };
    words.set(word, Some(slot));
    Ok(Some((slot, false)))
}

/// The word protects what the strong place holds, or None where that is null.
fn protect<K: PayloadKind>(
    domain: &Domain<NoLaw<K>>,
    seat: &mut Seat<NoLaw<K>>,
    word: u32,
    place: EventPlace,
) -> Option<SlotId>
    requires ready { IsReady domain.now seat.old }
    requires some { 0 < word }
    requires few { word < words_of_seat }
    requires free { note_of seat.old.view.core word ≡ stands.Idle }
    requires strong { place_kind place ≡ kind.Strong }
    requires opened { IsOpen (known_plain domain.now seat.old) 0 place }
    ensures null { IfNone result
        (FindsNone (known_plain domain.now seat.old) place (known_plain domain.now seat.new)) }
    ensures under { IfSome result (λ slot. IsProtected (known_plain domain.now seat.old) place slot
        (known_plain domain.now seat.new)) }
    ensures still { IfNone result (seat.new.view.core.notes ≡ seat.old.view.core.notes) }
    ensures noted { IfSome result (λ slot. seat.new.view.core.notes
        ≡ slice_set seat.old.view.core.notes word (note_for (Some slot))) }
    ensures trail { Shows [] seat.old.view.core seat.new.view.core }
    ensures ready { IsReady domain.now seat.new }
{
    match acquire(domain, seat, word, place, AnyStep, AnyStep) {
        Ok(found) => found,
        Err(_moved) => unreachable!(),
    }
}

/// One more owned reference to an object that the seat owns a reference to or is under a strong snapshot of. `Spent`
/// exactly where the seat has used all adds of its quota, and then nothing has changed. One step.
pub fn keep<P: Protocol>(
    domain: &Domain<P>,
    seat: &mut Seat<P>,
    slot: SlotId,
) -> Result<Strong, Spent>
    requires ready { IsReady domain.now seat.old }
    requires held { HoldsStrongly (seat_at (known_plain domain.now seat.old) 0) slot }
    ensures spent { IsErr result ↔ IsSpent seat.old.view.core }
    ensures refused { OnErr result (seat.new ≡ seat.old) }
    ensures gains { IfOk result (λ more. Gains (known_plain domain.now seat.old) slot more.slot
        (known_plain domain.now seat.new)) }
    ensures notes { seat.new.view.core.notes ≡ seat.old.view.core.notes }
    ensures trail { Shows [] seat.old.view.core seat.new.view.core }
    ensures ready { IsReady domain.now seat.new }
{
    if domain.adds_left(seat) == 0 {
        return Err(Spent);
    }
    domain.add(seat, slot, Still);
    Ok(Strong::of(slot))
}

/// Ends a snapshot of the slot that isn't counted. Its word protects nothing then. One step.
pub fn end<P: Protocol>(domain: &Domain<P>, seat: &mut Seat<P>, words: &mut Words, slot: SlotId)
    requires ready { IsReady domain.now seat.old }
    requires noted { AreNoted words.old seat.old }
    requires under { 0 < entry_times kind.Strong slot
        (seat_at (known_plain domain.now seat.old) 0).snapshots }
    ensures ends { Does (known_plain domain.now seat.old) 0 (act.EndSnapshot kind.Strong slot) 0
        (known_plain domain.now seat.new) }
    ensures noted { AreNoted words.new seat.new }
    ensures trail { Shows [] seat.old.view.core seat.new.view.core }
    ensures ready { IsReady domain.now seat.new }
{
    let word = words.word_of(slot);
    domain.release(seat, word);
    words.set(word, None);
}
