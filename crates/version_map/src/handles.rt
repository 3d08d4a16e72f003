//! Handles of a root, which may be null.
ghost use Rattle.std.specs.Prelude.{◌≡◌, ◌≤◌, ◌<◌, IfOk, OnErr, Some};
ghost use Rattle.version_making.specs.map_law.plain_state.Lists.{times};
ghost use Rattle.version_making.specs.map_law.plain_state.declared.slot.SlotId.{SlotId};
ghost use Rattle.version_making.specs.slot_store.control_word.Resting.{IsSpent};
ghost use Rattle.version_making.specs.Keeping.{IsReadyFor, Keeps, none, of_handle};
ghost use Rattle.version_making.specs.Opening.{of_load};

use version_making::{Domain, MapLaw, Seat, Spent, Strong, copy_strong};

/// One more reference to a root, if there is one. Refused exactly where it would use an add and none is left. At most
/// one step, and one add.
pub(crate) fn copy_root(
    domain: &Domain<MapLaw>,
    seat: &mut Seat<MapLaw>,
    root: &Option<Strong>,
) -> Result<Option<Strong>, Spent>
    requires ready { IsReadyFor domain.now seat.old }
    requires owned { (x : SlotId) → of_handle root.now x ≤ times x seat.old.view.core.owned }
    ensures same { IfOk result (λ copy. copy ≡ root.now) }
    ensures spent { OnErr result (IsSpent seat.new.view.core) }
    ensures keeps { Keeps 0 1 none (of_load result) seat.old seat.new }
    ensures ready { IsReadyFor domain.now seat.new }
{
    match root {
        None => Ok(None),
        Some(node) => copy_node(domain, seat, node),
    }
}

/// One more reference to a node.
fn copy_node(
    domain: &Domain<MapLaw>,
    seat: &mut Seat<MapLaw>,
    node: &Strong,
) -> Result<Option<Strong>, Spent>
    requires ready { IsReadyFor domain.now seat.old }
    requires owned { 0 < times node.now.slot seat.old.view.core.owned }
    ensures same { IfOk result (λ copy. copy ≡ Some node.now) }
    ensures spent { OnErr result (IsSpent seat.new.view.core) }
    ensures keeps { Keeps 0 1 none (of_load result) seat.old seat.new }
    ensures ready { IsReadyFor domain.now seat.new }
{
    match copy_strong(domain, seat, node) {
        Ok(more) => Ok(Some(more)),
        Err(spent) => Err(spent),
    }
}
