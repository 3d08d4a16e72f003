//! References that are given up.
ghost use Rattle.std.specs.Prelude.{◌≡◌, ◌+◌, ◌<◌, ◌≤◌, [], ◌∷◌};
ghost use Rattle.cell_intern.specs.cell_calls.cell_law.plain_state.declared.slot.SlotId.{SlotId};
ghost use Rattle.cell_intern.specs.cell_calls.cell_law.plain_state.Lists.{times};
ghost use Rattle.cell_records.specs.Clearing.{KnowsNull};
ghost use Rattle.cell_records.specs.Root.{IsRoot};
ghost use Rattle.lane_work.specs.Keeping.{slots_of};

use cell_intern::{CellLaw, EpochDomain, EpochSeat, Strong, e_drop};
use epoch_alone::lone_knows;

/// Gives up references that the seat owns. No cell changes. One event for each.
pub fn give_all(domain: &EpochDomain<CellLaw>, root: &mut EpochSeat<CellLaw>, kept: Vec<Strong>)
    requires ready { IsRoot domain.now root.old }
    requires owned { (s : SlotId) → times s (slots_of kept.items)
        ≤ times s root.old.view.core.owned }
    ensures owned { (s : SlotId) → times s root.new.view.core.owned
        + times s (slots_of kept.items) ≡ times s root.old.view.core.owned }
    ensures client { root.new.view.client ≡ root.old.view.client }
    ensures null { KnowsNull root.old → KnowsNull root.new }
    ensures ready { IsRoot domain.now root.new }
{
    for handle in kept {
        give_one(domain, root, handle);
    }
}

/// Gives up one.
fn give_one(domain: &EpochDomain<CellLaw>, root: &mut EpochSeat<CellLaw>, handle: Strong)
    requires ready { IsRoot domain.now root.old }
    requires owned { 0 < times handle.slot root.old.view.core.owned }
    ensures owned { (s : SlotId) → times s root.new.view.core.owned
        + times s (slots_of (handle ∷ [])) ≡ times s root.old.view.core.owned }
    ensures client { root.new.view.client ≡ root.old.view.client }
    ensures null { KnowsNull root.old → KnowsNull root.new }
    ensures ready { IsRoot domain.now root.new }
{
    lone_knows(domain, root);
    e_drop(domain, root, handle);
}
