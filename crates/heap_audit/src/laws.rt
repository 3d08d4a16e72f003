//! What follows from the rule of the walk, whatever finds it.
ghost use Rattle.std.specs.Prelude.{◌≡◌, ℕ, List};
ghost use Rattle.deleter.specs.plain_state.declared.slot.SlotId.{SlotId};
ghost use Rattle.deleter.specs.plain_state.declared.image.Heap.{Heap};
ghost use Rattle.heap_audit.specs.Walks.{HasDistinctRanks, IsFound, IsWalk};

/// What the search finds goes round a cycle of strong fields, so `check_walk` is true of it.
pub fn found_is_walk()
    ensures { (heap : Heap) (ranks : List ℕ) (walk : List SlotId)
        → IsFound heap ranks walk → IsWalk heap walk }
{}

/// Where no two slots have one rank, the search finds one walk alone.
pub fn one_walk_is_found()
    ensures { (heap : Heap) (ranks : List ℕ) (v w : List SlotId) → HasDistinctRanks heap ranks
        → IsFound heap ranks v → IsFound heap ranks w → v ≡ w }
{}
