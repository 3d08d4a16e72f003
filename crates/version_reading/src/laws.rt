//! What a seat knows of the map that has searched down from its root.
ghost use Rattle.std.specs.Prelude.{ℕ, Option, Some, slice_index};
ghost use Rattle.protected_loads.specs.plain_state.declared.slot.SlotId.{SlotId};
ghost use Rattle.protected_loads.specs.plain_state.State.{Plain};
ghost use Rattle.protected_loads.specs.domain_rule.Views.{object_in};
ghost use Rattle.protected_loads.specs.acquire_retire.Seats.{SeatState};
ghost use Rattle.map_trees.specs.Trees.{Pair};
ghost use Rattle.map_law.specs.declared.view.View.{View};
ghost use Rattle.version_reading.specs.Reading.{HasNext, HasNode, IsLonger, KnowsRoot, Sought};

/// Where the root cell shows a root that the seat holds, what a search down from that root found is the map's least
/// pair with at least the key; and no way down is longer than the root's height tells. The call does nothing.
pub fn searches_find_the_least()
    ensures found { (c : ℕ) (r : SlotId) (seat : SeatState View) (p : Plain)
        → KnowsRoot c (Some r) seat p → HasNode r seat → (key : ℕ) (found : Option Pair)
        → Sought r key found seat → HasNext c key found p }
    ensures longer { (c : ℕ) (r : SlotId) (seat : SeatState View) (p : Plain)
        → KnowsRoot c (Some r) seat p → HasNode r seat
        → ¬ (IsLonger r (slice_index (object_in seat.view r).payload 3) seat) }
{}
