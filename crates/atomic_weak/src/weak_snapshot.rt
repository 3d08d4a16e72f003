//! A weak snapshot in hand, and its end.
ghost use Rattle.std.specs.Prelude.{◌≡◌, ◌↔◌, IsTrue, None};
ghost use Rattle.protected_loads.specs.core_events.Steps.{HasRoom};
ghost use Rattle.protected_loads.specs.control_word.Moves.{KnowsStill};
ghost use Rattle.protected_loads.specs.control_word.Resting.{IsAtRest};
ghost use Rattle.atomic_weak.specs.Ending.{Ends, KeepsOthers, without_snapshot};
ghost use Rattle.atomic_weak.specs.WeakSnapshots.{IsUnder, notes_without};

use protected_loads::{Domain, Protocol, Seat, SlotId, drop_strong};
use retiring_stores::Strong;
use std::marker::Model;

/// A weak snapshot. A call that takes it asks that the seat is under it.
#[derive(Debug, Drop)]
pub struct WeakSnapshot {
    slot: SlotId,
    /// The announcement word that guards the object, or none where the snapshot is counted.
    word: Option<u32>,
}

impl Model for WeakSnapshot {
    ghost use Rattle.atomic_weak.specs.WeakSnapshots.{WeakSnap};

    ghost Value = { WeakSnap };

    ghost view = { λ s. record { slot = s.slot; word = s.word } };
}

impl WeakSnapshot {
    /// The snapshot of this slot, which this word guards.
    pub(crate) fn by(slot: SlotId, word: Option<u32>) -> WeakSnapshot
        ensures slot { result.slot ≡ slot }
        ensures word { result.word ≡ word }
    {
        WeakSnapshot { slot, word }
    }

    /// The slot that it names.
    pub fn slot(&self) -> SlotId
        ensures { result ≡ self.now.slot }
    {
        self.slot
    }

    /// The announcement word that guards its object; none where it is counted.
    pub fn word(&self) -> Option<u32>
        ensures { result ≡ self.now.word }
    {
        self.word
    }
}

/// Whether the snapshot is counted: it holds a strong reference, since all three words were in use as it was taken.
pub fn weak_counted(snapshot: &WeakSnapshot) -> bool
    ensures { IsTrue result ↔ (snapshot.now.word ≡ None) }
{
    snapshot.word.is_none()
}

/// Ends a weak snapshot. The announcement word of an uncounted one stands for nothing then, in one step; the reference
/// of a counted one is given up as `drop_strong` does, in at most three.
pub fn end_weak<P: Protocol>(domain: &Domain<P>, seat: &mut Seat<P>, snapshot: WeakSnapshot)
    requires rest { IsAtRest domain.now seat.old }
    requires under { IsUnder snapshot seat.old.view.core }
    ensures ended { Ends P.Kind.fits domain.now snapshot seat.old seat.new }
    ensures others { KeepsOthers snapshot seat.old.view.core seat.new.view.core }
    ensures client { seat.new.view.client ≡ seat.old.view.client }
    ensures notes { seat.new.view.core.notes
        ≡ notes_without snapshot seat.old.view.core.notes }
    ensures objects { KnowsStill (without_snapshot snapshot seat.old.view.core)
        seat.old seat.new }
    ensures room { HasRoom seat.old.view.core → HasRoom seat.new.view.core }
    ensures rest { IsAtRest domain.now seat.new }
{
    match snapshot.word() {
        Some(word) => {
            domain.release(seat, word);
        }
        None => drop_strong(domain, seat, Strong::of(snapshot.slot())),
    }
}
