//! A snapshot of what a strong place holds.
ghost use Rattle.std.specs.Prelude.{ℕ, ◌≡◌, ◌↔◌, Err, IfOk, IfSome, IsErr, OnErr};
ghost use Rattle.protected_loads.specs.core_events.Steps.{HasRoom};
ghost use Rattle.protected_loads.specs.core_events.Views.{Holds};
ghost use Rattle.protected_loads.specs.core_events.Words.{slot_in};
ghost use Rattle.protected_loads.specs.counted_handles.declared.refusal.LoadError.TheVariants as refused;
ghost use Rattle.protected_loads.specs.acquire_retire.Notes.{least_free};
ghost use Rattle.protected_loads.specs.control_word.Moves.{KnowsStill};
ghost use Rattle.protected_loads.specs.control_word.Resting.{IsAtRest};
ghost use Rattle.protected_loads.specs.Loads.{Misses};
ghost use Rattle.protected_loads.specs.Retries.{AtLast};
ghost use Rattle.atomic_shared.specs.Loading.{CanLoad};
ghost use Rattle.atomic_shared.specs.Places.{strong_place};
ghost use Rattle.snapshot_ptr.specs.Handles.{IsUnder, StaysUnder, notes_with, slot_under};
ghost use Rattle.snapshot_ptr.specs.Taking.{CanTakeNone, IsReadyToRetake, IsReadyToTake, Takes, word_taken};

use crate::handle::{Snapshot, held_by};
use atomic_shared::event_place;
use protected_loads::{
    Deed, Domain, LoadError, Place, Protocol, Seat, Spent, acquire, acquire_at_last, in_words,
    load, try_load,
};
use std::sync::Wait;

/// A snapshot of what the place holds, by the least of the announcement words 1 to 3 that stands for nothing. Where all
/// three are in use it is a counted one, taken as `try_load` loads a reference, which is the seat's while the snapshot
/// lasts. `Spent` comes first, exactly where all three are in use and the seat has used all adds of its quota, and then
/// nothing has changed. `None` exactly where the first step found null, and it is the only step then. `Moved` exactly
/// where the place held another content after the slot was announced; only the trail has grown then. The deed holds at
/// the look where that finds null, else at the check. At most four steps, or five and one add where it is counted.
pub fn try_snapshot<P: Protocol, D: Deed<P>>(
    domain: &Domain<P>,
    seat: &mut Seat<P>,
    place: Place,
    deed: D,
) -> Result<Option<Snapshot>, LoadError>
    requires rest { IsAtRest domain.now seat.old }
    requires place { CanLoad domain.now.shape seat.old.view.core place }
    requires deed { IsReadyToTake P.Kind.fits domain.now (strong_place place)
        (D.ready deed domain.now.protocol) seat.old }
    ensures spent { (result ≡ Err refused.Spent) ↔ CanTakeNone seat.old.view.core }
    ensures refused { result ≡ Err refused.Spent → seat.new ≡ seat.old }
    ensures taken { IfOk result (λ found. Takes P.Kind.fits domain.now (strong_place place)
        (D.next deed domain.now.protocol) (D.allows deed domain.now.protocol)
        (least_free seat.old.view.core) (slot_under found) seat.old seat.new) }
    ensures moved { (seen now : ℕ) → result ≡ Err (refused.Moved seen now)
        → Misses P.Kind.fits domain.now (word_taken (least_free seat.old.view.core))
        (strong_place place) (D.next deed domain.now.protocol)
        (D.allows deed domain.now.protocol) (slot_in seen) (slot_in now) seat.old seat.new }
    ensures word { IfOk result (λ found.
        IfSome found (λ snapshot. snapshot.word ≡ least_free seat.old.view.core)) }
    ensures under { IfOk result (λ found.
        IfSome found (λ snapshot. IsUnder snapshot seat.new.view.core)) }
    ensures holds { IfOk result (λ found.
        IfSome found (λ snapshot. Holds seat.new.view.core snapshot.slot)) }
    ensures notes { IfOk result (λ found. seat.new.view.core.notes
        ≡ notes_with found seat.old.view.core.notes) }
    ensures still { OnErr result (seat.new.view.core.notes ≡ seat.old.view.core.notes) }
    ensures others { StaysUnder seat.old.view.core seat.new.view.core }
    ensures objects { KnowsStill seat.old.view.core seat.old seat.new }
    ensures room { HasRoom seat.old.view.core → HasRoom seat.new.view.core }
    ensures rest { IsAtRest domain.now seat.new }
{
    let place = event_place(place);
    let Some(word) = domain.free_note(seat) else {
        return Ok(held_by(None, try_load(domain, seat, place, deed)?));
    };
    match acquire(domain, seat, word, place, deed, deed) {
        Ok(found) => Ok(held_by(Some(word), found)),
        Err(moved) => Err(in_words(moved)),
    }
}

/// A snapshot of what the place holds, as `try_snapshot` takes it. It tries again as long as the place changes between
/// its look and its check, so it may wait for other threads. `Spent` comes first, exactly where all three words are in
/// use and the seat has used all adds of its quota, and then nothing has changed. `None` exactly where the last try
/// found null. At most four steps for each try, or five and one add where the snapshot is counted.
pub fn snapshot<P: Protocol, D: Deed<P>, R: Wait>(
    rt: &R,
    domain: &Domain<P>,
    seat: &mut Seat<P>,
    place: Place,
    deed: D,
) -> Result<Option<Snapshot>, Spent>
    requires rest { IsAtRest domain.now seat.old }
    requires place { CanLoad domain.now.shape seat.old.view.core place }
    requires deed { IsReadyToRetake P.Kind.fits domain.now (strong_place place)
        (D.next deed domain.now.protocol) (D.allows deed domain.now.protocol)
        (D.ready deed domain.now.protocol) seat.old }
    ensures spent { IsErr result ↔ CanTakeNone seat.old.view.core }
    ensures refused { OnErr result (seat.new ≡ seat.old) }
    ensures taken { IfOk result (λ found. AtLast P.Kind.fits domain.now (strong_place place)
        (D.next deed domain.now.protocol) (D.allows deed domain.now.protocol)
        (word_taken (least_free seat.old.view.core))
        (Takes P.Kind.fits domain.now (strong_place place)
        (D.next deed domain.now.protocol) (D.allows deed domain.now.protocol)
        (least_free seat.old.view.core) (slot_under found)) seat.old seat.new) }
    ensures word { IfOk result (λ found.
        IfSome found (λ snapshot. snapshot.word ≡ least_free seat.old.view.core)) }
    ensures under { IfOk result (λ found.
        IfSome found (λ snapshot. IsUnder snapshot seat.new.view.core)) }
    ensures holds { IfOk result (λ found.
        IfSome found (λ snapshot. Holds seat.new.view.core snapshot.slot)) }
    ensures notes { IfOk result (λ found. seat.new.view.core.notes
        ≡ notes_with found seat.old.view.core.notes) }
    ensures others { StaysUnder seat.old.view.core seat.new.view.core }
    ensures objects { KnowsStill seat.old.view.core seat.old seat.new }
    ensures room { HasRoom seat.old.view.core → HasRoom seat.new.view.core }
    ensures rest { IsAtRest domain.now seat.new }
{
    let place = event_place(place);
    let Some(word) = domain.free_note(seat) else {
        return Ok(held_by(None, load(rt, domain, seat, place, deed)?));
    };
    let found = acquire_at_last(rt, domain, seat, word, place, deed);
    Ok(held_by(Some(word), found))
}
