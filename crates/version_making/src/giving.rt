//! References that are given up, and heights that are read, of subtrees that may be empty.
ghost use Rattle.std.specs.Prelude.{◌≡◌, ◌≤◌};
ghost use Rattle.map_law.specs.plain_state.Lists.{times};
ghost use Rattle.map_law.specs.plain_state.declared.slot.SlotId.{SlotId};
ghost use Rattle.version_making.specs.Building.{height_by};
ghost use Rattle.version_making.specs.Keeping.{IsReadyFor, Keeps, none, of_handle};

use atomic_shared::drop_strong;
use map_protocol::MapLaw;
use slot_store::{Domain, Seat, Strong, read};

/// Gives up a reference to a node, if there is one. What the seat knows of the map stays. At most one step, and a
/// collect where one is due then.
pub fn give_up(domain: &Domain<MapLaw>, seat: &mut Seat<MapLaw>, tree: Option<Strong>)
    requires ready { IsReadyFor domain.now seat.old }
    requires owned { (x : SlotId) → of_handle tree x ≤ times x seat.old.view.core.owned }
    ensures keeps { Keeps 0 0 (of_handle tree) none seat.old seat.new }
    ensures client { seat.new.view.client ≡ seat.old.view.client }
    ensures ready { IsReadyFor domain.now seat.new }
{
    if let Some(node) = tree {
        drop_strong(domain, seat, node);
    }
}

/// The height that the root of a subtree keeps, and 0 where the subtree is empty. At most one step.
pub fn height_at(domain: &Domain<MapLaw>, seat: &mut Seat<MapLaw>, tree: &Option<Strong>) -> u64
    requires ready { IsReadyFor domain.now seat.old }
    requires owned { (x : SlotId) → of_handle tree.now x ≤ times x seat.old.view.core.owned }
    ensures height { result ≡ height_by tree.now seat.old }
    ensures keeps { Keeps 0 0 none none seat.old seat.new }
    ensures ready { IsReadyFor domain.now seat.new }
{
    match tree {
        None => 0,
        Some(node) => read(domain, seat, node.slot(), 3),
    }
}
