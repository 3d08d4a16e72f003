//! A weak snapshot of what a weak place holds: its object is read, although its count may end meanwhile.
//!
//! The reader protects the slot weakly by its first word, so that it isn't given again. Then it announces the slot for
//! disposal by one of the words 1 to 3, and then it reads the strong word. Where that counts a reference the object can
//! only end later: whoever ends it scans after that before it may destroy anything, and so reads the announcement, and
//! the slot isn't ripe as long as the reader keeps it. Where it counts none, the one who ended the object may have
//! scanned before the announcement stood there, so the reader has nothing and takes it back. A read before the
//! announcement would tell nothing of a scan between the two.
//!
//! Where the reader has no word left it adds to the count instead. An add that finds no zero flag counts, also where it
//! finds 0: whoever is to finish the object finds the count then, and lets it live.
ghost use Rattle.std.specs.Prelude.{ℕ, ◌≡◌, ◌↔◌, Err, IfOk, IsErr, None, OnErr, Some};
ghost use Rattle.protected_loads.specs.core_events.Steps.{HasAdd, HasRoom};
ghost use Rattle.protected_loads.specs.core_events.Words.{slot_in};
ghost use Rattle.protected_loads.specs.counted_handles.declared.refusal.LoadError.TheVariants as refused;
ghost use Rattle.protected_loads.specs.acquire_retire.Calls.{IsOf, IsSameView, same_view};
ghost use Rattle.protected_loads.specs.acquire_retire.Notes.{least_free};
ghost use Rattle.protected_loads.specs.control_word.Moves.{KnowsStill};
ghost use Rattle.protected_loads.specs.control_word.Resting.{IsAtRest};
ghost use Rattle.protected_loads.specs.Loads.{Misses};
ghost use Rattle.atomic_weak.specs.Loading.{CanLoad};
ghost use Rattle.atomic_weak.specs.Places.{weak_place};
ghost use Rattle.atomic_weak.specs.Taking.{Finds, IsReadyToAsk, IsUnderWhereHeld, notes_with};
ghost use Rattle.atomic_weak.specs.Questions.{Answers, CanAsk, IsReadyFor};
ghost use Rattle.atomic_weak.specs.WeakSnapshots.{CanTakeNone, StaysUnder};

use crate::places::event_place;
use crate::weak_snapshot::WeakSnapshot;
use protected_loads::{
    Deed, Domain, Kind, LoadError, Protocol, Seat, SlotId, Spent, Still, WeakPlace, acquire,
    in_words,
};
use retiring_stores::Outcome;

/// What a try to take a weak snapshot found.
#[derive(Debug, Drop)]
pub enum WeakSnap {
    /// The place was null.
    Null,
    /// The place held a slot to which no strong reference was left.
    Zero,
    /// The seat is under this snapshot.
    Held(WeakSnapshot),
}

/// A weak snapshot of what the place holds, by the least of the announcement words 1 to 3 that stands for nothing. The
/// slot is protected by the first word as `try_load_weak` does it, then announced for disposal by that word, and its
/// strong word is read: `Zero` exactly where that counts no reference. Where all three words are in use an add asks
/// instead: `Zero` exactly where it finds the zero flag, and else the snapshot is counted. `Spent` comes first, exactly
/// where all three are in use and the seat has used all adds of its quota, and then nothing has changed. `Null` exactly
/// where the first step found null, and it is the only step then. `Moved` exactly where the place held another content
/// after the slot was announced; only the trail has grown then. The deed holds at the look where that finds null, else
/// at the step that asks. At most seven steps, and one add where all three words are in use.
pub fn try_weak_snapshot<P: Protocol, D: Deed<P>>(
    domain: &Domain<P>,
    seat: &mut Seat<P>,
    place: WeakPlace,
    deed: D,
) -> Result<WeakSnap, LoadError>
    requires rest { IsAtRest domain.now seat.old }
    requires place { CanLoad domain.now.shape seat.old.view.core place }
    requires deed { IsReadyToAsk P.Kind.fits domain.now (weak_place place)
        (D.ready deed domain.now.protocol) seat.old }
    ensures spent { (result ≡ Err refused.Spent) ↔ CanTakeNone seat.old.view.core }
    ensures refused { result ≡ Err refused.Spent → seat.new ≡ seat.old }
    ensures found { IfOk result (λ found. Finds P.Kind.fits domain.now (weak_place place)
        (D.next deed domain.now.protocol) (D.allows deed domain.now.protocol)
        (least_free seat.old.view.core) found seat.old seat.new) }
    ensures moved { (seen now : ℕ) → result ≡ Err (refused.Moved seen now)
        → Misses P.Kind.fits domain.now 0 (weak_place place) same_view IsSameView
        (slot_in seen) (slot_in now) seat.old seat.new }
    ensures under { IfOk result (λ found. IsUnderWhereHeld found seat.new.view.core) }
    ensures notes { IfOk result (λ found. seat.new.view.core.notes
        ≡ notes_with found seat.old.view.core.notes) }
    ensures still { OnErr result (seat.new.view.core.notes ≡ seat.old.view.core.notes) }
    ensures others { StaysUnder seat.old.view.core seat.new.view.core }
    ensures objects { KnowsStill seat.old.view.core seat.old seat.new }
    ensures room { HasRoom seat.old.view.core → HasRoom seat.new.view.core }
    ensures rest { IsAtRest domain.now seat.new }
{
    let Ok(word) = means(domain, seat) else {
        return Err(LoadError::Spent);
    };
    match acquire(domain, seat, 0, event_place(place), deed, Still) {
        Err(moved) => Err(in_words(moved)),
        Ok(None) => Ok(WeakSnap::Null),
        Ok(Some(slot)) => Ok(ask(domain, seat, word, slot, deed)),
    }
}

/// By which a seat can ask: the least of the words 1 to 3 that stands for nothing, or none where it is to be an add.
fn means<P: Protocol>(domain: &Domain<P>, seat: &Seat<P>) -> Result<Option<u32>, Spent>
    requires { IsOf domain.now seat.now }
    ensures spent { IsErr result ↔ CanTakeNone seat.now.view.core }
    ensures word { IfOk result (λ word. (word ≡ least_free seat.now.view.core)
        × (word ≡ None → HasAdd seat.now.view.core)) }
{
    let Some(word) = domain.free_note(seat) else {
        if domain.adds_left(seat) == 0 {
            return Err(Spent);
        }
        return Ok(None);
    };
    Ok(Some(word))
}

/// Asks by a word, or an add where there is none, whether the object of a slot that the first word protects lives, and
/// takes that protection back.
fn ask<P: Protocol, D: Deed<P>>(
    domain: &Domain<P>,
    seat: &mut Seat<P>,
    word: Option<u32>,
    slot: SlotId,
    deed: D,
) -> WeakSnap
    requires seat { IsOf domain.now seat.old }
    requires may { CanAsk domain.now.shape word slot seat.old.view.core }
    requires deed { IsReadyFor P.Kind.fits domain.now word slot
        (D.ready deed domain.now.protocol) seat.old }
    ensures { Answers P.Kind.fits domain.now word slot (D.next deed domain.now.protocol)
        (D.allows deed domain.now.protocol) result seat.old seat.new }
{
    match word {
        Some(word) => guard(domain, seat, word, slot, deed),
        None => count(domain, seat, slot, deed),
    }
}

/// Asks by a word, which stands for the snapshot then where the object lives, and else for nothing.
fn guard<P: Protocol, D: Deed<P>>(
    domain: &Domain<P>,
    seat: &mut Seat<P>,
    word: u32,
    slot: SlotId,
    deed: D,
) -> WeakSnap
    requires seat { IsOf domain.now seat.old }
    requires may { CanAsk domain.now.shape (Some word) slot seat.old.view.core }
    requires deed { IsReadyFor P.Kind.fits domain.now (Some word) slot
        (D.ready deed domain.now.protocol) seat.old }
    ensures { Answers P.Kind.fits domain.now (Some word) slot (D.next deed domain.now.protocol)
        (D.allows deed domain.now.protocol) result seat.old seat.new }
{
    domain.announce(seat, word, Kind::Disposal, slot);
    if let Outcome::Alive = domain.alive(seat, word, deed) {
        domain.release(seat, 0);
        return WeakSnap::Held(WeakSnapshot::by(slot, Some(word)));
    }
    domain.release(seat, 0);
    domain.release(seat, word);
    WeakSnap::Zero
}

/// Asks by an add, which counts a strong reference where the object lives.
fn count<P: Protocol, D: Deed<P>>(
    domain: &Domain<P>,
    seat: &mut Seat<P>,
    slot: SlotId,
    deed: D,
) -> WeakSnap
    requires seat { IsOf domain.now seat.old }
    requires may { CanAsk domain.now.shape None slot seat.old.view.core }
    requires deed { IsReadyFor P.Kind.fits domain.now None slot
        (D.ready deed domain.now.protocol) seat.old }
    ensures { Answers P.Kind.fits domain.now None slot (D.next deed domain.now.protocol)
        (D.allows deed domain.now.protocol) result seat.old seat.new }
{
    if let Outcome::Up = domain.add(seat, slot, deed) {
        domain.release(seat, 0);
        return WeakSnap::Held(WeakSnapshot::by(slot, None));
    }
    domain.release(seat, 0);
    WeakSnap::Zero
}
