//! What holds of every settling, and of every snapshot.
ghost use Rattle.std.specs.Prelude.{ℕ, Bool, List, Option};
ghost use Rattle.plain_store.specs.plain_state.declared.act.EventPlace.{EventPlace};
ghost use Rattle.plain_store.specs.plain_state.declared.slot.SlotId.{SlotId};
ghost use Rattle.plain_store.specs.plain_state.State.{Plain};
ghost use Rattle.plain_store.specs.Settling.{SettlesTo};
ghost use Rattle.plain_store.specs.Calls.{Snaps};
ghost use Rattle.plain_settling.specs.Snapshots.{Takes};
ghost use Rattle.plain_settling.specs.Settling.{TidiesTo};

/// What a plain heap does when it settles is to tidy, whatever its payloads weigh. It does nothing.
pub fn plain_heaps_settle_so()
    ensures { (weight : List ℕ → ℕ) (p q : Plain) (total : ℕ)
        → SettlesTo weight p total q → TidiesTo p q }
{}

/// To tidy and then to tidy on is to tidy. It does nothing.
pub fn settling_goes_on()
    ensures { (p q r : Plain) → TidiesTo p q → TidiesTo q r → TidiesTo p r }
{}

/// A snapshot that a plain heap takes is one more in the seat's list. It does nothing.
pub fn plain_heaps_take_so()
    ensures { (p q : Plain) (place : EventPlace) (found : Option (SlotId × Bool))
        → Snaps p place found q → Takes p place found q }
{}
