//! How the calls on a record follow one another.
ghost use Rattle.std.specs.Prelude.{ℕ, ◌≡◌, ◌<◌, List, ◌∷◌};
ghost use Rattle.cell_calls.specs.cell_law.plain_state.declared.slot.SlotId.{SlotId};
ghost use Rattle.cell_calls.specs.cell_law.plain_state.Lists.{times};
ghost use Rattle.cell_calls.specs.cell_law.directory_law.Payloads.{Text};
ghost use Rattle.cell_calls.specs.cell_law.Making.{binds};
ghost use Rattle.cell_calls.specs.cell_law.Views.{IsWord, sight};
ghost use Rattle.cell_calls.specs.cell_law.declared.view.View.{View};
ghost use Rattle.cell_calls.specs.cell_law.Walks.{SawAll};
ghost use Rattle.cell_calls.specs.Keeping.{Keeps, Learns, NotesOnly};
ghost use Rattle.epoch_refs.specs.epoch_domain.Seats.{SeatState};
ghost use Rattle.cell_making.specs.Bindings.{HasHead};
ghost use Rattle.cell_making.specs.Making.{HasMade, candidate_in};

/// A record that was made is a head with its text. It stays one while the seat learns more and goes on to own it, so
/// also where a bind was lost. A bind takes its note away, lists it as bound, and has seen it in its cell.
pub fn records_are_bound_in_turn()
    ensures made { (text : Text) (n : ℕ) (s : SlotId) (old new : SeatState View)
        → HasMade text n s old new → IsWord text → HasHead text s new }
    ensures stays { (text : Text) (makes adds : ℕ) (owned : List SlotId) (s : SlotId)
        (old new : SeatState View) → HasHead text s old → Keeps makes adds owned old new
        → Learns old.view.client new.view.client → 0 < times s new.view.core.owned
        → HasHead text s new }
    ensures bound { (text : Text) (s : SlotId) (cell : ℕ) (seat : SeatState View)
        → (head : HasHead text s seat) → binds cell seat.view.client
        ≡ record seat.view.client {
          noted = head.others;
          bound = candidate_in s text seat ∷ seat.view.client.bound;
          seen = sight cell s ∷ seat.view.client.seen;
        } }
{}

/// A make of a record changes the notes alone, refused or not. So the seat forgets nothing that it has seen in cells,
/// and a walk stays where it is.
pub fn makes_change_notes_alone()
    ensures notes { (text : Text) (n : ℕ) (s : SlotId) (old new : SeatState View)
        → HasMade text n s old new → NotesOnly old.view.client new.view.client }
    ensures sights { (v w : View) → NotesOnly v w → SawAll v w × (w.cleared ≡ v.cleared) }
{}
