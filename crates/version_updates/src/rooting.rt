//! The root of a version, with its height.
ghost use Rattle.std.specs.Prelude.{ℕ, ◌≡◌, ◌<◌, ◌↔◌, Err, IfOk};
ghost use Rattle.map_law.specs.plain_state.declared.act.EventPlace.TheVariants.{Cell};
ghost use Rattle.map_law.specs.Lessons.{see_next};
ghost use Rattle.map_law.specs.Nodes.{IsNode};
ghost use Rattle.slot_store.specs.core_events.Words.{slot_in};
ghost use Rattle.slot_store.specs.control_word.Resting.{IsSpent};
ghost use Rattle.slot_store.specs.counted_handles.declared.refusal.LoadError.TheVariants as refused;
ghost use Rattle.atomic_shared.specs.protected_loads.Loads.{Misses};
ghost use Rattle.atomic_shared.specs.protected_loads.References.{Loads};
ghost use Rattle.atomic_shared.specs.Places.{named};
ghost use Rattle.version_making.specs.Keeping.{IsReadyFor, Keeps, none};
ghost use Rattle.version_making.specs.Opening.{of_load};
ghost use Rattle.version_updates.specs.Roots.{IsLowRoot, LowTells};

use crate::deeds::LoadLowRoot;
use atomic_shared::{LoadError, Place, try_load};
use map_protocol::MapLaw;
use slot_store::{Domain, Seat, Strong};

/// A reference to the root of the version that stands in the root cell, and none where the map is empty. Nobody changes
/// that node, and its height is below 2^62. `Spent` comes first, exactly where the seat has used all adds of its quota;
/// `Moved` exactly where the cell held another root after the announcement, and tells both. At most five steps, and one
/// add where it answers a node.
pub fn load_low_root(
    domain: &Domain<MapLaw>,
    seat: &mut Seat<MapLaw>,
    cell: u32,
) -> Result<Option<Strong>, LoadError>
    requires ready { IsReadyFor domain.now seat.old }
    requires cell { (cell ≡ domain.now.protocol.cell) × (cell < domain.now.shape.cells) }
    ensures loaded { IfOk result (λ root. Loads IsNode domain.now (Cell cell) see_next
        (LowTells domain.now.protocol.cell) (named root) seat.old seat.new) }
    ensures low { IfOk result (λ root. IsLowRoot domain.now.shape root seat.new) }
    ensures spent { (result ≡ Err refused.Spent) ↔ IsSpent seat.old.view.core }
    ensures moved { (seen now : ℕ) → result ≡ Err (refused.Moved seen now)
        → Misses IsNode domain.now 0 (Cell cell) see_next (LowTells domain.now.protocol.cell)
        (slot_in seen) (slot_in now) seat.old seat.new }
    ensures keeps { Keeps 0 1 none (of_load result) seat.old seat.new }
    ensures ready { IsReadyFor domain.now seat.new }
{
    try_load(domain, seat, Place::Cell(cell), LoadLowRoot)
}
